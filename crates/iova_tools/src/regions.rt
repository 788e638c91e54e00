//! A group's reserved regions, read from the file that the words name.
ghost use Rattle.std.specs.Prelude.{ℕ, List, IfErr, OnOk, Ok};
ghost use Rattle.iova_regions.specs.Regions.{IsReadWell, ReadsAll};
ghost use Rattle.iova_tools.specs.Faults.{IsFaultOfRegions};

use crate::fault::Fault;
use iova_command::words::STANDARD_INPUT;
use iova_range::bounds::Bounds;
use iova_regions::read::read_all_regions;
use iova_regions::region::Counted;
use iova_regions::windows::Windows;
use std::alloc::Global;
use std::fs::File;
use std::io::Read;
use std::rt::{Files, Runtime};

/// Inserts the frames of the regions that count, as far as they are within the bounds. A contract
/// sees that they are those of a whole text, and not which file has it. Refused by
/// `CannotRead`, by `RegionsRefused` and by `NoMemory`.
pub fn add_regions<'a, R>(
    rt: &R,
    path: &'a str,
    which: Counted,
    bounds: Bounds,
    windows: &mut Windows,
) -> Result<(), Fault<'a>>
where
    R: Runtime + AllocGlobal + Files<File = File>,
    ensures read { OnOk result ((text : List ℕ)
        × IsReadWell which bounds text windows.old windows.new) }
    ensures faults { IfErr result (IsFaultOfRegions path.entry) }
{
    if path == STANDARD_INPUT {
        return read_from(rt.alloc(), &mut rt.reader(), path, which, bounds, windows);
    }
    match File::open(rt, path) {
        Ok(mut file) => read_from(rt.alloc(), &mut file, path, which, bounds, windows),
        Err(_) => Err(Fault::CannotRead(path)),
    }
}

/// The windows of the regions that this reader has.
#[tactic(auto, using(crate::proofs::Reading::of_read))]
fn read_from<'a, I: Read>(
    alloc: Global,
    reader: &mut I,
    path: &'a str,
    which: Counted,
    bounds: Bounds,
    windows: &mut Windows,
) -> Result<(), Fault<'a>>
    ensures read { OnOk result (ReadsAll which bounds (I.remaining reader.old)
        (I.remaining reader.new) windows.old windows.new (Ok tt)) }
    ensures faults { IfErr result (IsFaultOfRegions path.entry) }
{
    match read_all_regions(alloc, reader, which, bounds, windows) {
        Ok(()) => Ok(()),
        Err(fault) => Err(Fault::of_regions(fault, path)),
    }
}
