// A source over bytes in memory.

ghost use Rattle.std.specs.Prelude.{Some};

use texts::{DeviceFault, Source};

/// A source over bytes in memory. It never fails.
#[derive(Drop)]
pub(crate) struct BytesSource<'a> {
    rest: &'a [u8],
}

impl<'a> BytesSource<'a> {
    pub(crate) fn of(bytes: &'a [u8]) -> BytesSource<'a> {
        BytesSource { rest: bytes }
    }
}

impl<'a> Source for BytesSource<'a> {
    ghost state = { λ s. record { bytes = Some s.rest.now; failures = 0 } };

    fn read(&mut self, buffer: &mut [u8]) -> Result<usize, DeviceFault> {
        let count = buffer.len().min(self.rest.len());
        let (front, rest) = self.rest.split_at(count);
        buffer[..count].copy_from_slice(front);
        self.rest = rest;
        Ok(count)
    }

    fn failures(&self) -> u64 {
        0
    }
}
