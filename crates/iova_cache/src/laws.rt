//! The laws of a cache: what follows from the definitions of its calls for every list of them. Each
//! function has a law as its contract, and no body.
ghost use Rattle.iova_cache.specs.Laws.{RangesAreKept, EntriesWait};
ghost use Rattle.iova_cache.specs.Worlds.{PlacesAreKept, FramesHaveOneUser};
ghost use Rattle.iova_cache.specs.Reuse.{ReuseOverCachesIsFlushed};
ghost use Rattle.iova_cache.specs.Wrong.{WrongCachesHarmTheirOwn};

use iova_laws::refusals::refusals_keep_the_state;
use iova_laws::replies::{others_keep_their_holdings, steps_are_answered_in_kind};
use iova_laws::validity::steps_keep_validity;

/// No range is lost and none is made, whatever is done with a cache, one act after another: what it
/// has at the end and what went out of it are what it had and what came into it.
pub fn ranges_are_kept()
    ensures { RangesAreKept }
{}

/// A range that was given up waits until the cache learns of a flush that ended well and has a
/// greater number than the last one that had begun then.
pub fn entries_wait()
    ensures { EntriesWait }
{}

/// Whatever is done with a domain and any number of caches in front of it, one after another, each
/// cache has what its client holds: range by range, at one of its three places. So no frame is lost
/// between them.
pub fn places_are_kept()
    ensures { PlacesAreKept }
{
    // for the proof: what a step leaves to those whom it doesn't name, one that is refused, and
    // that it keeps a domain as it may be
    others_keep_their_holdings();
    refusals_keep_the_state();
    steps_keep_validity();
}

/// A frame has one user at most: it is in one range at most of those that the users of caches hold
/// and that other clients of the domain hold.
pub fn frames_have_one_user()
    ensures { FramesHaveOneUser }
{
    places_are_kept();
}

/// A frame that a user gave up is given to a user again, by whichever cache or by the domain, only
/// where a flush that began afterwards has ended well. It holds where the caches learn the truth: a
/// range that is given up gets a number that is no smaller than that of the last flush that has
/// begun, and caches are settled by numbers that aren't above that of a flush that has ended well.
pub fn reuse_over_caches_is_flushed()
    ensures { ReuseOverCachesIsFlushed }
{
    // for the proof: the same of the domain's steps, and that a step has answers of its own kind
    others_keep_their_holdings();
    refusals_keep_the_state();
    steps_keep_validity();
    steps_are_answered_in_kind();
}

/// A cache that breaks its word harms its own user alone. Whatever wrong caches give, keep and say,
/// their clients are clients as any other to the domain: the users of all other caches and the
/// clients without a cache have each frame alone, and are given it behind a flush, as far as the
/// right caches learn the truth. Any cache may turn wrong at any time.
pub fn wrong_caches_harm_their_own()
    ensures { WrongCachesHarmTheirOwn }
{
    places_are_kept();
    frames_have_one_user();
    reuse_over_caches_is_flushed();
}
