//! Standard input by its path, and the standard streams that the program was started without.
ghost use Rattle.std.specs.Prelude.{◌≡◌, ◌≢◌, codes};

use iova_command::words::STANDARD_INPUT;
use std::fs::File;
use std::os::fd::{AsRawFd, IntoRawFd, RawFd};
use std::rt::Files;

/// The number of standard error, the last of the three streams.
const STANDARD_ERROR: RawFd = 2;

/// What is opened to take the number of a closed stream: a folder can't be read or written either.
const ROOT: &str = "/";

/// Where standard input is.
const INPUT_PATH: &str = "/dev/stdin";

/// The path of the input of this name: `-` is standard input.
pub fn path_of_input(name: &str) -> &str
    ensures standard { name.now ≡ codes "-" → result.now ≡ codes "/dev/stdin" }
    ensures named { name.now ≢ codes "-" → result.now ≡ name.now }
{
    if name == STANDARD_INPUT {
        INPUT_PATH
    } else {
        name
    }
}

/// Takes the numbers of the standard streams that are closed, so that no file and no socket gets
/// one: what is printed would be written there. It is called before anything is opened.
pub fn hold_closed_streams<R: Files<File = File>>(rt: &R) {
    for _ in 0..=STANDARD_ERROR {
        match File::open(rt, ROOT) {
            Ok(file) if file.as_raw_fd() <= STANDARD_ERROR => {
                // it stays open until the program ends
                let _ = file.into_raw_fd();
            }
            _ => return,
        }
    }
}
