//! Where frames are: each is in one place, none is lost, and none is made.
ghost use Rattle.iova_model.specs.Laws.{EachFrameIsInOnePlace, PlacesAddUp, StepsConserve};

/// Each frame is at the place of the one holder that has it, or free where none has it.
pub fn each_frame_is_in_one_place()
    ensures { EachFrameIsInOnePlace }
{}

/// The count of each kind of place is the frames of the holders there, and all counts add up to the
/// frames of the bounds.
pub fn places_add_up()
    ensures { PlacesAddUp }
{}

/// No frame is lost, and none is made: a step takes ranges from free frames and makes ranges free,
/// those that `Moves` says and no others, whatever ranges weigh.
pub fn steps_conserve()
    ensures { StepsConserve }
{}
