// A sink in memory.

ghost use Rattle.std.specs.Prelude.{None};

use std::alloc::Global;
use texts::{DeviceFault, Sink};

/// Bytes in memory. As a sink it fails only where memory is refused.
#[derive(Drop)]
pub struct Captured {
    bytes: Vec<u8>,
    failures: u64,
}

impl Captured {
    /// No bytes.
    pub fn new(alloc: Global) -> Captured {
        Captured {
            bytes: Vec::new(alloc),
            failures: 0,
        }
    }

    /// The bytes that were written.
    pub fn bytes(&self) -> &[u8] {
        self.bytes.as_slice()
    }

    /// Forgets the bytes.
    pub fn clear(&mut self) {
        self.bytes.clear();
    }
}

impl Sink for Captured {
    ghost state = { λ s. record { bytes = None; failures = s.failures } };

    fn write(&mut self, bytes: &[u8]) -> Result<usize, DeviceFault> {
        match self.bytes.extend_from_slice(bytes) {
            Ok(()) => Ok(bytes.len()),
            Err(_) => {
                self.failures = self.failures.saturating_add(1);
                Err(DeviceFault)
            }
        }
    }

    fn failures(&self) -> u64 {
        self.failures
    }
}
