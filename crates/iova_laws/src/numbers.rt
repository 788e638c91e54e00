//! The numbers of the flushes stay sound: the credits balance, the numbers in flight rise, and the
//! finish count reaches no further than flushes that ended well.
ghost use Rattle.iova_model.specs.Laws.{NewFlushesAreSound, BeginsKeepFlushesSound, EndsKeepFlushesSound, OldestFlushReaches};

/// With no flush in flight the numbers are sound, from wherever they count.
pub fn new_flushes_are_sound()
    ensures { NewFlushesAreSound }
{}

/// They are after a flush has begun.
pub fn begins_keep_flushes_sound()
    ensures { BeginsKeepFlushesSound }
{}

/// They are after a flush in flight has ended, well or not.
pub fn ends_keep_flushes_sound()
    ensures { EndsKeepFlushesSound }
{}

/// Where the oldest flush in flight ends well, the finish count reaches its number.
pub fn oldest_flush_reaches()
    ensures { OldestFlushReaches }
{}
