// A file or standard input that is read.

ghost use Rattle.std.specs.Prelude.{◌<◌, ◌-◌, None};

use crate::failure::{DeviceCall, Failure, Failures};
use arrayvec::ArrayVec;
use std::alloc::Global;
use std::fs;
use std::io::{Read, Stdin};
use std::rt::Files;
use texts::{DeviceFault, Source};

/// What bytes are read from.
#[derive(Drop)]
enum Stream<F: Drop> {
    /// The file is opened at its first read.
    Unopened,
    File(F),
    Standard(Stdin),
    /// There are no bytes.
    Empty,
}

/// How many bytes at the beginning are remembered.
const HEAD_LEN: usize = 64;

/// A file that is opened at its first read, or standard input. It remembers how it begins and how much was read.
#[derive(Drop)]
pub struct FileSource<'a, R: Files> {
    files: &'a R,
    path: &'a str,
    stream: Stream<R::File>,
    head: ArrayVec<u8, HEAD_LEN>,
    /// All that was read, where that is wanted and memory was not refused.
    text: Option<Vec<u8>>,
    len: u64,
    was_read: bool,
    is_amid: bool,
    failures: Failures,
}

impl<'a, R: Files> FileSource<'a, R> {
    /// A source for the file at this path. Nothing is opened before its first read.
    pub fn new(files: &'a R, path: &'a str) -> FileSource<'a, R> {
        FileSource {
            files,
            path,
            stream: Stream::Unopened,
            head: ArrayVec::new(),
            text: None,
            len: 0,
            was_read: false,
            is_amid: false,
            failures: Failures::none(),
        }
    }

    /// The source that a word of the command line names: standard input for `-`, else a file.
    pub fn of_word(files: &'a R, stdin: Stdin, word: &'a str) -> FileSource<'a, R> {
        let mut source = FileSource::new(files, word);
        if word == "-" {
            source.stream = Stream::Standard(stdin);
        }
        source
    }

    /// A source without bytes.
    pub fn empty(files: &'a R) -> FileSource<'a, R> {
        let mut source = FileSource::new(files, "");
        source.stream = Stream::Empty;
        source
    }

    /// The same source, which remembers all that is read, as long as memory is not refused.
    pub fn remembering(self, alloc: Global) -> FileSource<'a, R> {
        let mut source = self;
        source.text = Some(Vec::new(alloc));
        source
    }

    /// All that was read; None where it is not remembered.
    pub fn text(&self) -> Option<&[u8]> {
        match &self.text {
            Some(text) => Some(text.as_slice()),
            None => None,
        }
    }

    /// The word that named it.
    pub fn path(&self) -> &'a str {
        self.path
    }

    /// The first bytes that were read, 64 at most.
    pub fn head(&self) -> &[u8] {
        self.head.as_slice()
    }

    /// How many bytes were read.
    pub fn len(&self) -> u64 {
        self.len
    }

    /// Whether a read was tried.
    pub fn was_read(&self) -> bool {
        self.was_read
    }

    /// Why it failed first; None if it did not.
    pub fn failure(&self) -> Option<Failure> {
        self.failures.first
    }

    /// Whether bytes were read, and neither the end nor a failure after them.
    pub fn is_amid(&self) -> bool {
        self.is_amid
    }
}

impl<'a, R: Files> Source for FileSource<'a, R> {
    ghost state = { λ s. record { bytes = None; failures = s.failures.count } };

    fn read(&mut self, buffer: &mut [u8]) -> Result<usize, DeviceFault> {
        self.was_read = true;
        if let Stream::Unopened = &self.stream {
            match fs::open(self.files, self.path) {
                Ok(file) => self.stream = Stream::File(file),
                Err(error) => return Err(self.failures.fail(DeviceCall::Open, Some(error))),
            }
        }
        let read = match &mut self.stream {
            Stream::File(file) => file.read(buffer),
            Stream::Standard(stdin) => stdin.read(buffer),
            Stream::Empty => Ok(0),
            Stream::Unopened => return Err(self.failures.fail(DeviceCall::Open, None)),
        };
        match read {
            Ok(count) => {
                self.is_amid = count > 0;
                self.len = self.len.saturating_add(count as u64);
                remember(&mut self.head, &buffer[..count]);
                let is_kept = match &mut self.text {
                    Some(text) => text.extend_from_slice(&buffer[..count]).is_ok(),
                    None => true,
                };
                if !is_kept {
                    self.text = None;
                }
                Ok(count)
            }
            Err(error) => {
                self.is_amid = false;
                Err(self.failures.fail(DeviceCall::Read, Some(error)))
            }
        }
    }

    fn failures(&self) -> u64 {
        self.failures.count
    }
}

/// Adds bytes to the beginning that is remembered, as long as there is room.
fn remember(head: &mut ArrayVec<u8, HEAD_LEN>, bytes: &[u8]) {
    for byte in bytes {
        if head.try_push(*byte).is_err() {
            return;
        }
    }
}
