// A sink over a writer.

ghost use Rattle.std.specs.Prelude.{◌<◌, ◌-◌, None};

use crate::failure::{DeviceCall, Failure, Failures};
use std::io::Write;
use texts::{DeviceFault, Sink};

/// A sink over a writer, such as standard output.
#[derive(Drop)]
pub struct WriterSink<W: Write> {
    writer: W,
    failures: Failures,
}

impl<W: Write> WriterSink<W> {
    /// A sink over this writer.
    pub fn new(writer: W) -> WriterSink<W> {
        WriterSink {
            writer,
            failures: Failures::none(),
        }
    }

    /// Why it failed first; None if it did not.
    pub fn failure(&self) -> Option<Failure> {
        self.failures.first
    }
}

impl<W: Write> Sink for WriterSink<W> {
    ghost state = { λ s. record { bytes = None; failures = s.failures.count } };

    fn write(&mut self, bytes: &[u8]) -> Result<usize, DeviceFault> {
        match self.writer.write(bytes) {
            Ok(count) => {
                if count == 0 {
                    self.failures.fail(DeviceCall::Write, None);
                }
                Ok(count)
            }
            Err(error) => Err(self.failures.fail(DeviceCall::Write, Some(error))),
        }
    }

    fn failures(&self) -> u64 {
        self.failures.count
    }
}
