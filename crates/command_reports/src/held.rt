// Standard streams that are closed when the program begins.

use std::fs;
use std::fs::OpenOptions;
use std::rt::Files;

/// Opens a file in the place of each standard stream that is closed. Otherwise the next file that is opened would get
/// the number of that stream, and what is printed would go into it. The file that stands for standard input cannot be
/// read, and the others cannot be written, so each use of such a stream still fails. The files have to be kept as long
/// as the program runs.
pub fn hold_streams<R: Files>(files: &R) -> [Option<R::File>; 3] {
    [
        held(files, "/dev/fd/0", true),
        held(files, "/dev/fd/1", false),
        held(files, "/dev/fd/2", false),
    ]
}

/// A file in the place of a stream, if that is closed. It gets the lowest free number, which is the stream's, as those
/// below are open.
fn held<R: Files>(files: &R, stream: &str, is_input: bool) -> Option<R::File> {
    if fs::metadata(files, stream).is_ok() {
        return None;
    }
    OpenOptions::new()
        .write(is_input)
        .read(!is_input)
        .open(files, "/dev/null")
        .ok()
}
