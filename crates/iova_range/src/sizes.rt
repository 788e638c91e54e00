//! How sizes are rounded, aligned and cached.
ghost use Rattle.std.specs.Prelude.{◌≡◌, ◌≤◌, ◌<◌, ◌^◌, ℕ, Some, ◌↔◌, IsTrue, IfSome, IfNone, ◌≢◌};
ghost use Rattle.std.specs.Int.{IsNextPowerOfTwo};
ghost use Rattle.iova_range.specs.Sizes.{need, align_of, order_of};

use crate::limits::{MAX_FRAMES, MOST_CACHED, ORDERS};

/// How many frames a request for `n` frames is given, `n` being 1 to 1,048,576: the least power of
/// two that is not below `n` for `n` below 32, else `n` itself (Linux 5.15
/// `drivers/iommu/dma-iommu.c`: `iommu_dma_alloc_iova`).
pub fn need(n: u64) -> u64
    requires some { 1 ≤ n }
    requires bounded { n ≤ MAX_FRAMES }
    ensures computed { result ≡ need n }
    ensures small { n < 32 → IsNextPowerOfTwo n result }
    ensures great { 32 ≤ n → result ≡ n }
{
    if n < 32 { align_of(n) } else { n }
}

/// What the first frame of a range of `size` frames is a multiple of, `size` being 1 to 1,048,576:
/// the least power of two that is not below `size` (Linux 5.15 `drivers/iommu/iova.c`:
/// `__alloc_and_insert_iova_range`).
pub fn align_of(size: u64) -> u64
    requires some { 1 ≤ size }
    requires bounded { size ≤ MAX_FRAMES }
    ensures computed { result ≡ align_of size }
    ensures least { IsNextPowerOfTwo size result }
{
    size.next_power_of_two()
}

/// The order of the magazines that ranges of `size` frames go to, `size` being 1 to 1,048,576: 0 to
/// 5 for 1, 2, 4, 8, 16 and 32 frames, else none (Linux 5.15 `drivers/iommu/iova.c`:
/// `iova_rcache_get`).
pub fn order_of(size: u64) -> Option<u8>
    requires some { 1 ≤ size }
    requires bounded { size ≤ MAX_FRAMES }
    ensures computed { result ≡ order_of size }
    ensures power { IfSome result (λ order. (order < ORDERS) × (size ≡ 2 ^ order)) }
    ensures uncached { IfNone result ((order : ℕ) → order < ORDERS → size ≢ 2 ^ order) }
{
    match size {
        1 => Some(0),
        2 => Some(1),
        4 => Some(2),
        8 => Some(3),
        16 => Some(4),
        32 => Some(5),
        _ => None,
    }
}

/// Whether what a request for `frames` frames is given has an order, `frames` being any number.
#[inline(always)]
pub fn is_cached(frames: u64) -> bool
    ensures { IsTrue result ↔ ((1 ≤ frames) × (frames ≤ MOST_CACHED)) }
{
    frames != 0 && frames <= MOST_CACHED
}

/// The order of what a request for `frames` frames is given, `frames` being 1 to 32: `order_of` of
/// its `need`, by one count of digits.
#[inline(always)]
pub fn order_of_need(frames: u64) -> u8
    requires some { 1 ≤ frames }
    requires few { frames ≤ MOST_CACHED }
    ensures is { order_of (need frames) ≡ Some result }
    ensures low { result < ORDERS }
    ensures size { need frames ≡ 2 ^ result }
{
    (63 - (2 * frames - 1).leading_zeros()) as u8
}

/// The order of what a request for `frames` frames is given, `frames` being 1 to 1,048,576, where
/// it has one: `need(frames)` is a power of two up to 32 frames, and has no order above.
#[inline(always)]
pub fn order_for(frames: u64) -> Option<u8>
    requires some { 1 ≤ frames }
    requires bounded { frames ≤ MAX_FRAMES }
    ensures is { result ≡ order_of (need frames) }
    ensures order { IfSome result (λ order. (order < ORDERS) × (need frames ≡ 2 ^ order)) }
    ensures none { IfNone result (need frames ≡ frames) }
{
    if frames > MOST_CACHED {
        return None;
    }
    Some(order_of_need(frames))
}

/// How many frames a request for `frames` frames is given, `frames` being 1 to 1,048,576, and the
/// order that of `order_for`.
#[inline(always)]
pub fn size_for(frames: u64, order: Option<u8>) -> u64
    requires some { 1 ≤ frames }
    requires bounded { frames ≤ MAX_FRAMES }
    requires order { IfSome order (λ order. (order < ORDERS) × (need frames ≡ 2 ^ order)) }
    requires none { IfNone order (need frames ≡ frames) }
    ensures is { result ≡ need frames }
    ensures some { 1 ≤ result }
    ensures bounded { result ≤ MAX_FRAMES }
{
    match order {
        Some(order) => 1 << order,
        None => frames,
    }
}
