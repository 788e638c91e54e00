//! The regions of a whole text, taken into windows.
ghost use Rattle.std.specs.Prelude.{◌≡◌, ◌≢◌, ◌≤◌, ◌<◌, ◌⊎◌, ◌++◌, [], ◌∷◌, ℕ, List, OnOk, OnErr, IfSome, IfNone, length, take};
ghost use Rattle.std.specs.Io.KnownBytes.{Consumes, IsAtEnd, Keeps};
ghost use Rattle.iova_range.specs.Frames.{Frames};
ghost use Rattle.iova_range.specs.declared.limits.TheConstants.{MAX_WINDOWS};
ghost use Rattle.iova_text.specs.Lines.{whole_line};
ghost use Rattle.iova_regions.specs.declared.region.Region.{Region};
ghost use Rattle.iova_regions.specs.Text.{region_text, IsRegion};
ghost use Rattle.iova_regions.specs.Regions.{frames_of, counts, windows_after, keeps_back, Covers, Reads, ReadsAll, EndsReading};

use crate::fault::RegionsFault;
use crate::line::read_region;
use crate::region::{Counted, Region, RegionKind};
use crate::windows::{Windows, cut};
use iova_range::bounds::Bounds;
use iova_range::limits::FRAME_BYTES;
use iova_range::range::Range;
use iova_range::refusal::Refusal;
use iova_text::line::cut_line;
use iova_text::read::read_some;
use std::alloc::Global;
use std::io::Read;

/// How many bytes are read at a time.
const BUFFER: usize = 4096;

/// Reads the whole text of `reserved_regions`, and inserts the frames of each region that counts,
/// as far as they are within the bounds, in the order of the lines. A text of no bytes has no
/// region. Refused by `Line`, with the number of the first bad line, exactly where a line is none
/// of a region (one without its LF too), or where its region would make a 65th window; the regions
/// of the lines before it are inserted then.
pub fn read_regions(
    bytes: &[u8],
    which: Counted,
    bounds: Bounds,
    windows: &mut Windows,
) -> Result<(), RegionsFault>
    ensures { Reads which bounds bytes.now windows.old windows.new result }
{
    let mut rest = bytes;
    let mut number = 0u64;
    while !rest.is_empty() {
        number += 1;
        let Some((region, more)) = next_region(rest) else {
            return Err(RegionsFault::Line(number));
        };
        match take_region(region, which, bounds, windows) {
            Ok(()) => rest = more,
            Err(_) => return Err(RegionsFault::Line(number)),
        }
    }
    Ok(())
}

/// Reads all bytes, and then their regions. All bytes are kept until then. Refused as that is; by
/// `Read`, where a read fails, an interruption too, and by `NoMemory`: then the windows are as they
/// were.
pub fn read_all_regions<R: Read>(
    alloc: Global,
    reader: &mut R,
    which: Counted,
    bounds: Bounds,
    windows: &mut Windows,
) -> Result<(), RegionsFault>
    ensures { ReadsAll which bounds (R.remaining reader.old) (R.remaining reader.new) windows.old
        windows.new result }
{
    let text = read_all(alloc, reader)?;
    read_regions(text.as_slice(), which, bounds, windows)
}

/// The region of the line at the front, and the bytes after that line.
fn next_region(text: &[u8]) -> Option<(Region, &[u8])>
    ensures spelled { IfSome result (λ p. IsRegion p.0
        × (text.now ≡ whole_line (region_text p.0) ++ p.1.now)) }
    ensures none { IfNone result ((r : Region) (more : List ℕ) → IsRegion r
        → text.now ≢ whole_line (region_text r) ++ more) }
    ensures less { IfSome result (λ p. length p.1.now < length text.now) }
{
    let (line, more) = cut_line(text)?;
    match read_region(line) {
        Some(region) => Some((region, more)),
        None => None,
    }
}

/// Inserts what a region keeps back.
fn take_region(
    region: Region,
    which: Counted,
    bounds: Bounds,
    windows: &mut Windows,
) -> Result<(), Refusal>
    requires { IsRegion region }
    ensures ok { OnOk result (windows.new ≡ windows_after which bounds region windows.old) }
    ensures room { OnOk result (length windows.new ≤ MAX_WINDOWS) }
    ensures covers { OnOk result (Covers which bounds (region ∷ []) windows.old windows.new) }
    ensures same { OnErr result (windows.new ≡ windows.old) }
    ensures full { OnErr result (MAX_WINDOWS < length
        (windows_after which bounds region windows.old)) }
{
    let _kept = windows.ranges(); // for the proof: there are at most 64
    if !is_counted(which, region.kind) {
        return Ok(());
    }
    match cut(frames(region), bounds.start(), bounds.last()) {
        None => Ok(()),
        Some(range) => windows.insert(range),
    }
}

/// The frames that the region has a byte in.
fn frames(region: Region) -> Range
    requires { IsRegion region }
    ensures { result ≡ frames_of region }
{
    let lo = region.first / FRAME_BYTES;
    let hi = region.last / FRAME_BYTES;
    Range::new(lo, hi + 1 - lo)
}

fn is_counted(which: Counted, kind: RegionKind) -> bool
    ensures { result ≡ counts which kind }
{
    match which {
        Counted::All => true,
        Counted::NotDirect => match kind {
            RegionKind::Direct | RegionKind::DirectRelaxable => false,
            RegionKind::Msi | RegionKind::Reserved => true,
        },
    }
}

/// All bytes that the reader has.
fn read_all<R: Read>(alloc: Global, reader: &mut R) -> Result<Vec<u8>, RegionsFault>
    ensures { EndsReading (R.remaining reader.old) (R.remaining reader.new) result }
{
    let mut text = Vec::new(alloc);
    let mut buffer = [0u8; BUFFER];
    for _ in 0..u64::MAX {
        match read_some(reader, &mut buffer) {
            Ok(0) => return Ok(text),
            Ok(len) => {
                if text.extend_from_slice(&buffer[..len]).is_err() {
                    return Err(RegionsFault::NoMemory);
                }
            }
            Err(_) => return Err(RegionsFault::Read),
        }
    }
    Err(RegionsFault::Read)
}
