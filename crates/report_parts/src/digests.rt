// Digests of the files.

ghost use Rattle.std.specs.Prelude.{None};

use certificate::{Certificate, write};
use sha2::{Digest, Sha256};
use std::alloc::{AllocError, Global};
use texts::{DeviceFault, Sink};

/// A sink that makes a digest of what it takes.
#[derive(Drop)]
struct Hashing {
    hasher: Sha256,
}

impl Sink for Hashing {
    ghost state = { λ _. record { bytes = None; failures = 0 } };

    fn write(&mut self, bytes: &[u8]) -> Result<usize, DeviceFault> {
        self.hasher.update(bytes);
        Ok(bytes.len())
    }

    fn failures(&self) -> u64 {
        0
    }
}

/// The SHA-256 of the certificate's text.
pub fn certificate_digest(certificate: &Certificate) -> [u8; 32] {
    let mut sink = Hashing {
        hasher: Sha256::new(),
    };
    let _ = write(certificate, &mut sink);
    let Hashing { hasher } = sink;
    hasher.finalize()
}

/// The SHA-256 of bytes.
pub fn bytes_digest(bytes: &[u8]) -> [u8; 32] {
    let mut hasher = Sha256::new();
    hasher.update(bytes);
    hasher.finalize()
}

/// The hexadecimal digits of bytes.
pub fn digits_of(alloc: Global, bytes: &[u8]) -> Result<String, AllocError> {
    let mut text = String::new(alloc);
    for byte in bytes {
        text.push_str(format!(in alloc; "{byte:02x}")?.as_str())?;
    }
    Ok(text)
}
