// A file that is written whole or not at all.

ghost use Rattle.std.specs.Prelude.{◌<◌, ◌-◌, None};

use crate::failure::{DeviceCall, Failure, Failures};
use std::alloc::Global;
use std::fs::OpenOptions;
use std::io::{ErrorKind, Write};
use std::rt::Files;
use std::{fs, io};
use texts::{DeviceFault, Sink};

/// How many names of drafts are tried.
const MOST_DRAFTS: u32 = 100;

/// A file beside another one, whose name it takes once it is whole.
#[derive(Drop)]
struct TemporaryFile {
    name: String,
    /// The name that it takes.
    becomes: String,
}

/// A file that is opened at its first write. A regular file, and one that is not there yet, is written beside itself as
/// a draft, and `finish` gives the draft its name. If nothing is written, or `discard` is called in the place of
/// `finish`, an existing file stays as it is. A pipe or a device is written at once. So is a file in a folder that
/// takes no new file, and one for whose draft memory is refused.
#[derive(Drop)]
pub struct FileSink<'a, R: Files> {
    files: &'a R,
    alloc: Global,
    path: &'a str,
    file: Option<R::File>,
    draft: Option<TemporaryFile>,
    failures: Failures,
}

impl<'a, R: Files> FileSink<'a, R> {
    /// A sink for the file at this path. Nothing is opened before its first write.
    pub fn new(files: &'a R, alloc: Global, path: &'a str) -> FileSink<'a, R> {
        FileSink {
            files,
            alloc,
            path,
            file: None,
            draft: None,
            failures: Failures::none(),
        }
    }

    /// Why it failed first; None if it did not.
    pub fn failure(&self) -> Option<Failure> {
        self.failures.first
    }

    /// Gives what was written its name.
    ///
    /// # Errors
    ///
    /// `DeviceFault` where that fails; an existing file stays as it was.
    pub fn finish(&mut self) -> Result<(), DeviceFault> {
        let Some(draft) = self.draft.take() else {
            return Ok(());
        };
        match fs::rename(self.files, draft.name.as_str(), draft.becomes.as_str()) {
            Ok(()) => Ok(()),
            Err(error) => {
                let _removed = fs::remove_file(self.files, draft.name.as_str());
                Err(self.failures.fail(DeviceCall::Rename, Some(error)))
            }
        }
    }

    /// Removes what was written, unless it has its name already or was written at once.
    pub fn discard(&mut self) {
        if let Some(draft) = self.draft.take() {
            let _removed = fs::remove_file(self.files, draft.name.as_str());
        }
    }
}

/// A file that was opened, with its draft if it is one.
type Opened<F> = (F, Option<TemporaryFile>);

/// Opens a file for writing, or a draft of it.
fn open<R: Files>(files: &R, alloc: Global, path: &str) -> io::Result<Opened<R::File>> {
    let draft = match OpenOptions::new().write(true).open(files, path) {
        Ok(file) => {
            let found = files.metadata(path)?;
            if !found.is_file() {
                return Ok((file, None));
            }
            let draft = match files.canonicalize(alloc, path) {
                Ok(real) => open_draft(files, alloc, real.as_str())?,
                Err(error) if error.kind() == ErrorKind::OutOfMemory => None,
                Err(error) => return Err(error),
            };
            if let Some((_, draft)) = &draft {
                fs::set_permissions(files, draft.name.as_str(), found.permissions())?;
            }
            draft
        }
        Err(error) if error.kind() == ErrorKind::NotFound => open_draft(files, alloc, path)?,
        Err(error) => return Err(error),
    };
    match draft {
        Some((file, draft)) => Ok((file, Some(draft))),
        None => Ok((fs::create(files, path)?, None)),
    }
}

/// Creates a draft beside the file with this path; None if its folder takes no new file, or none of such a name, or if
/// memory is refused for the name.
fn open_draft<R: Files>(
    files: &R,
    alloc: Global,
    path: &str,
) -> io::Result<Option<(R::File, TemporaryFile)>> {
    for number in 0..MOST_DRAFTS {
        let Ok(name) = format!(in alloc; "{path}.{number}.part") else {
            return Ok(None);
        };
        let Ok(becomes) = String::from_str(alloc, path) else {
            return Ok(None);
        };
        let opened = OpenOptions::new()
            .write(true)
            .create_new(true)
            .open(files, name.as_str());
        match opened {
            Ok(file) => return Ok(Some((file, TemporaryFile { name, becomes }))),
            Err(error) => match error.kind() {
                ErrorKind::AlreadyExists => {}
                ErrorKind::PermissionDenied
                | ErrorKind::ReadOnlyFilesystem
                | ErrorKind::InvalidFilename => return Ok(None),
                _ => return Err(error),
            },
        }
    }
    Ok(None)
}

impl<'a, R: Files> Sink for FileSink<'a, R> {
    ghost state = { λ s. record { bytes = None; failures = s.failures.count } };

    fn write(&mut self, bytes: &[u8]) -> Result<usize, DeviceFault> {
        if self.file.is_none() {
            match open(self.files, self.alloc, self.path) {
                Ok((file, draft)) => {
                    self.file = Some(file);
                    self.draft = draft;
                }
                Err(error) => return Err(self.failures.fail(DeviceCall::Create, Some(error))),
            }
        }
        let written = match &mut self.file {
            Some(file) => file.write(bytes),
            None => return Err(self.failures.fail(DeviceCall::Create, None)),
        };
        match written {
            Ok(0) => {
                self.failures.fail(DeviceCall::Write, None);
                Ok(0)
            }
            Ok(count) => Ok(count),
            Err(error) => Err(self.failures.fail(DeviceCall::Write, Some(error))),
        }
    }

    fn failures(&self) -> u64 {
        self.failures.count
    }
}
