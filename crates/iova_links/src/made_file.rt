//! Files that a run makes.
ghost use Rattle.std.specs.Prelude.{◌≡◌, IfSome};

use std::fs;
use std::fs::File;
use std::os::unix::fs::MetadataExt;
use std::rt::Files;

/// A file that was made at a path, a socket's too: it is known by its device and inode.
#[derive(Clone, Copy, Debug)]
pub struct MadeFile<'a> {
    path: &'a str,
    device: u64,
    inode: u64,
}

impl<'a> MadeFile<'a> {
    /// The file that stands at this path now. None where there is none.
    pub fn at<R: Files<File = File>>(rt: &R, path: &'a str) -> Option<MadeFile<'a>>
        ensures { IfSome result (λ f. f.path.now ≡ path.now) }
    {
        match fs::symlink_metadata(rt, path) {
            Ok(metadata) => Some(MadeFile {
                path,
                device: metadata.dev(),
                inode: metadata.ino(),
            }),
            Err(_) => None,
        }
    }

    /// Its path.
    pub fn path(&self) -> &'a str
        ensures { result.now ≡ self.now.path.now }
    {
        self.path
    }

    /// Removes it, where it still stands at its path: another file there is left as it is. That it
    /// can't be removed is no fault.
    pub fn remove<R: Files<File = File>>(&self, rt: &R) {
        if let Ok(metadata) = fs::symlink_metadata(rt, self.path)
            && metadata.dev() == self.device
            && metadata.ino() == self.inode
        {
            let _ = fs::remove_file(rt, self.path);
        }
    }
}
