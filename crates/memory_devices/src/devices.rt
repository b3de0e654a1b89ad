// The devices.

ghost use Rattle.std.specs.Prelude.{Some};

use texts::{DeviceFault, Sink, Source};

/// A source over bytes in memory. It gives at most `piece` bytes per call, and fails once `calls` has counted down to
/// 0.
#[derive(Drop)]
pub struct Bytes<'a> {
    rest: &'a [u8],
    piece: usize,
    calls: u64,
    asked: u64,
    failures: u64,
}

impl<'a> Bytes<'a> {
    /// A source that gives at most 4,096 bytes per call and never fails.
    pub fn whole(bytes: &'a [u8]) -> Bytes<'a> {
        Bytes::failing(bytes, 4096, u64::MAX)
    }

    /// A source that gives at most `piece` bytes per call, but at least one, and fails at each call after the first
    /// `calls`.
    pub fn failing(bytes: &'a [u8], piece: usize, calls: u64) -> Bytes<'a> {
        Bytes {
            rest: bytes,
            piece,
            calls,
            asked: 0,
            failures: 0,
        }
    }

    /// The number of calls so far.
    pub fn asked(&self) -> u64 {
        self.asked
    }

    /// The number of bytes not given yet.
    pub fn left(&self) -> usize {
        self.rest.len()
    }
}

impl<'a> Source for Bytes<'a> {
    ghost state = { λ s. record { bytes = Some s.rest.now; failures = s.failures } };

    fn read(&mut self, buffer: &mut [u8]) -> Result<usize, DeviceFault> {
        self.asked = self.asked.saturating_add(1);
        if self.calls == 0 {
            self.failures = self.failures.saturating_add(1);
            return Err(DeviceFault);
        }
        self.calls -= 1;
        let count = buffer.len().min(self.rest.len()).min(self.piece.max(1));
        let (front, rest) = self.rest.split_at(count);
        buffer[..count].copy_from_slice(front);
        self.rest = rest;
        Ok(count)
    }

    fn failures(&self) -> u64 {
        self.failures
    }
}

/// A sink into memory. It takes at most `piece` bytes per call, and fails once `calls` has counted down to 0.
#[derive(Drop)]
pub struct Taken {
    pub bytes: Vec<u8>,
    piece: usize,
    calls: u64,
    asked: u64,
    failures: u64,
}

impl Taken {
    /// A sink that takes at most 4,096 bytes per call and fails only if memory is refused.
    pub fn new(alloc: std::alloc::Global) -> Taken {
        Taken::failing(alloc, 4096, u64::MAX)
    }

    /// A sink that takes at most `piece` bytes per call, but at least one. It fails at each call after the first
    /// `calls`, and if memory is refused.
    pub fn failing(alloc: std::alloc::Global, piece: usize, calls: u64) -> Taken {
        Taken {
            bytes: Vec::new(alloc),
            piece,
            calls,
            asked: 0,
            failures: 0,
        }
    }

    /// The number of calls so far.
    pub fn asked(&self) -> u64 {
        self.asked
    }
}

impl Sink for Taken {
    ghost state = { λ s. record { bytes = Some s.bytes.items; failures = s.failures } };

    fn write(&mut self, bytes: &[u8]) -> Result<usize, DeviceFault> {
        self.asked = self.asked.saturating_add(1);
        let count = bytes.len().min(self.piece.max(1));
        if self.calls == 0 || self.bytes.extend_from_slice(&bytes[..count]).is_err() {
            self.failures = self.failures.saturating_add(1);
            return Err(DeviceFault);
        }
        self.calls -= 1;
        Ok(count)
    }

    fn failures(&self) -> u64 {
        self.failures
    }
}
