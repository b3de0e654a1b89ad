// Whether two paths name one file.

ghost use Rattle.std.specs.Prelude.{◌≡◌, true};

use std::fs;
use std::os::unix::fs::MetadataExt;
use std::rt::Files;

/// Whether two paths name one file: they are the same text, or both lead to one regular file, as its device and inode
/// tell. A path that leads to no file names no other path's file.
pub fn is_same_file(files: &impl Files, path: &str, other: &str) -> bool
    ensures same { path.now ≡ other.now → result ≡ true }
{
    if path == other {
        return true;
    }
    match (fs::metadata(files, path), fs::metadata(files, other)) {
        (Ok(file), Ok(other)) => {
            file.is_file() && file.dev() == other.dev() && file.ino() == other.ino()
        }
        _ => false,
    }
}
