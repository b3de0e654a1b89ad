// An output of a command, and one that is finished before another one is written.

ghost use Rattle.std.specs.Prelude.{◌<◌, ◌-◌, None};

use crate::failure::{DeviceCall, Failure, Failures};
use crate::file_sink::FileSink;
use std::alloc::Global;
use std::cell::RefCell;
use std::io;
use std::io::{Stderr, Stdout, Write};
use std::rt::Files;
use texts::{DeviceFault, Sink};

/// Where an output goes.
#[derive(Drop)]
enum Target<'a, R: Files> {
    Nowhere,
    File(FileSink<'a, R>),
    Stdout(Stdout),
    Stderr(Stderr),
}

/// An output of a command: a file, a standard stream, or one that takes all bytes and keeps none.
#[derive(Drop)]
pub struct Output<'a, R: Files> {
    target: Target<'a, R>,
    failures: Failures,
}

impl<'a, R: Files> Output<'a, R> {
    /// An output that keeps nothing.
    pub fn nowhere() -> Output<'a, R> {
        Output::to(Target::Nowhere)
    }

    /// A file that is written whole or not at all (`FileSink`).
    pub fn file(files: &'a R, alloc: Global, path: &'a str) -> Output<'a, R> {
        Output::to(Target::File(FileSink::new(files, alloc, path)))
    }

    /// Standard output.
    pub fn stdout(stdout: Stdout) -> Output<'a, R> {
        Output::to(Target::Stdout(stdout))
    }

    /// Standard error.
    pub fn stderr(stderr: Stderr) -> Output<'a, R> {
        Output::to(Target::Stderr(stderr))
    }

    fn to(target: Target<'a, R>) -> Output<'a, R> {
        Output {
            target,
            failures: Failures::none(),
        }
    }

    /// Why it failed first; None if it did not.
    pub fn failure(&self) -> Option<Failure> {
        match &self.target {
            Target::File(file) => file.failure(),
            Target::Nowhere | Target::Stdout(_) | Target::Stderr(_) => self.failures.first,
        }
    }

    /// Gives a file that was written its name.
    ///
    /// # Errors
    ///
    /// `DeviceFault` where that fails; an existing file stays as it was.
    pub fn finish(&mut self) -> Result<(), DeviceFault> {
        match &mut self.target {
            Target::File(file) => file.finish(),
            Target::Nowhere | Target::Stdout(_) | Target::Stderr(_) => Ok(()),
        }
    }

    /// Removes a file that was written and not finished.
    pub fn discard(&mut self) {
        if let Target::File(file) = &mut self.target {
            file.discard();
        }
    }
}

impl<'a, R: Files> Sink for Output<'a, R> {
    ghost state = { λ s. record { bytes = None; failures = s.failures.count } };

    fn write(&mut self, bytes: &[u8]) -> Result<usize, DeviceFault> {
        let written = match &mut self.target {
            Target::Nowhere => return Ok(bytes.len()),
            Target::File(file) => match file.write(bytes) {
                Ok(count) => Ok(count),
                Err(_) => Err(None),
            },
            Target::Stdout(stdout) => some_error(stdout.write(bytes)),
            Target::Stderr(stderr) => some_error(stderr.write(bytes)),
        };
        match written {
            Ok(count) if count <= bytes.len() => {
                if count == 0 {
                    self.failures.fail(DeviceCall::Write, None);
                }
                Ok(count)
            }
            Ok(_) => Err(self.failures.fail(DeviceCall::Write, None)),
            Err(error) => Err(self.failures.fail(DeviceCall::Write, error)),
        }
    }

    fn failures(&self) -> u64 {
        self.failures.count
    }
}

/// The same with an error that may be absent.
fn some_error(written: io::Result<usize>) -> Result<usize, Option<io::Error>> {
    match written {
        Ok(count) => Ok(count),
        Err(error) => Err(Some(error)),
    }
}

/// A sink over an output that another sink finishes.
#[derive(Drop)]
pub struct SharedOutput<'s, 'a, R: Files> {
    output: &'s RefCell<Output<'a, R>>,
    failures: Failures,
}

impl<'s, 'a, R: Files> SharedOutput<'s, 'a, R> {
    /// A sink over this output.
    pub fn new(output: &'s RefCell<Output<'a, R>>) -> SharedOutput<'s, 'a, R> {
        SharedOutput {
            output,
            failures: Failures::none(),
        }
    }
}

impl<'s, 'a, R: Files> Sink for SharedOutput<'s, 'a, R> {
    ghost state = { λ s. record { bytes = None; failures = s.failures.count } };

    fn write(&mut self, bytes: &[u8]) -> Result<usize, DeviceFault> {
        let written = match self.output.try_borrow_mut() {
            Ok(mut output) => output.write(bytes),
            Err(_) => Err(DeviceFault),
        };
        match written {
            Ok(count) => {
                if count == 0 {
                    self.failures.fail(DeviceCall::Write, None);
                }
                Ok(count)
            }
            Err(_) => Err(self.failures.fail(DeviceCall::Write, None)),
        }
    }

    fn failures(&self) -> u64 {
        self.failures.count
    }
}

/// An output whose first write finishes another one.
#[derive(Drop)]
pub struct AfterOutput<'s, 'a, R: Files> {
    before: &'s RefCell<Output<'a, R>>,
    is_begun: bool,
    output: Output<'a, R>,
    failures: Failures,
}

impl<'s, 'a, R: Files> AfterOutput<'s, 'a, R> {
    /// An output whose first write finishes `before`.
    pub fn new(
        before: &'s RefCell<Output<'a, R>>,
        output: Output<'a, R>,
    ) -> AfterOutput<'s, 'a, R> {
        AfterOutput {
            before,
            is_begun: false,
            output,
            failures: Failures::none(),
        }
    }

    /// The output that is written second.
    pub fn output(&self) -> &Output<'a, R> {
        &self.output
    }
}

impl<'s, 'a, R: Files> Sink for AfterOutput<'s, 'a, R> {
    ghost state = { λ s. record { bytes = None; failures = s.failures.count } };

    fn write(&mut self, bytes: &[u8]) -> Result<usize, DeviceFault> {
        if !self.is_begun {
            self.is_begun = true;
            let finished = match self.before.try_borrow_mut() {
                Ok(mut before) => before.finish(),
                Err(_) => Err(DeviceFault),
            };
            if finished.is_err() {
                return Err(self.failures.fail(DeviceCall::Rename, None));
            }
        }
        match self.output.write(bytes) {
            Ok(count) => {
                if count == 0 {
                    self.failures.fail(DeviceCall::Write, None);
                }
                Ok(count)
            }
            Err(_) => Err(self.failures.fail(DeviceCall::Write, None)),
        }
    }

    fn failures(&self) -> u64 {
        self.failures.count
    }
}
