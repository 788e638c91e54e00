//! What a request is given, and when it finds nothing.
ghost use Rattle.iova_model.specs.Laws.{RequestsAreAnswered};

/// In a valid state a request is given as many frames as it needs, aligned, inside the bounds and
/// none above its limit; and where it is refused for want of space, no place would fit even with
/// all caches emptied.
pub fn requests_are_answered()
    ensures { RequestsAreAnswered }
{}
