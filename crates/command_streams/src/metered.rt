// Devices that report how many bytes passed.

use texts::{DeviceFault, Sink, Source};

/// What is told how far a device is.
pub trait Meter {
    /// Tells that so many bytes passed so far.
    fn tell(&mut self, bytes: u64);
}

/// A source over another one, that tells a meter of each read.
#[derive(Drop)]
pub struct MeteredSource<S: Source, M: Meter> {
    source: S,
    meter: M,
    bytes: u64,
}

impl<S: Source, M: Meter> MeteredSource<S, M> {
    /// A source over another one, with the meter that it tells of each read.
    pub fn new(source: S, meter: M) -> MeteredSource<S, M> {
        MeteredSource {
            source,
            meter,
            bytes: 0,
        }
    }

    /// The other source.
    pub fn source(&self) -> &S {
        &self.source
    }
}

impl<S: Source, M: Meter> Source for MeteredSource<S, M> {
    ghost state = { λ s. S.state s.source };

    fn read(&mut self, buffer: &mut [u8]) -> Result<usize, DeviceFault> {
        let given = self.source.read(buffer);
        if let Ok(count) = given {
            self.bytes = self.bytes.saturating_add(count as u64);
            self.meter.tell(self.bytes);
        }
        given
    }

    fn failures(&self) -> u64 {
        self.source.failures()
    }
}

/// A sink over another one, that tells a meter of each write.
#[derive(Drop)]
pub struct MeteredSink<W: Sink, M: Meter> {
    sink: W,
    meter: M,
    bytes: u64,
}

impl<W: Sink, M: Meter> MeteredSink<W, M> {
    /// A sink over another one, with the meter that it tells of each write.
    pub fn new(sink: W, meter: M) -> MeteredSink<W, M> {
        MeteredSink {
            sink,
            meter,
            bytes: 0,
        }
    }

    /// The other sink.
    pub fn sink(&self) -> &W {
        &self.sink
    }
}

impl<W: Sink, M: Meter> Sink for MeteredSink<W, M> {
    ghost state = { λ s. W.state s.sink };

    fn write(&mut self, bytes: &[u8]) -> Result<usize, DeviceFault> {
        let taken = self.sink.write(bytes);
        if let Ok(count) = taken {
            self.bytes = self.bytes.saturating_add(count as u64);
            self.meter.tell(self.bytes);
        }
        taken
    }

    fn failures(&self) -> u64 {
        self.sink.failures()
    }
}
