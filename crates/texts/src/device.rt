// Devices: the sources that texts are read from and the sinks that they are written to.

ghost use Rattle.std.specs.Prelude.{◌≡◌, ◌<◌, ◌≤◌, Ok, IfOk, OnErr, length, take, []};
ghost use Rattle.texts.specs.Device.{DeviceState, FailsAmid, Gives, GivesBytes, HasFailed, IsAtEnd, Puts, Takes, TakesBytes};

/// A device failed. Its count of failures says so.
#[derive(Clone, Copy, Debug, PartialEq, Eq)]
pub struct DeviceFault;

/// A device that bytes are read from.
pub trait Source {
    /// The bytes still to come, if the source has them in its contract, and the number of its failures.
    ghost state: { Self → DeviceState };

    /// Reads into the buffer and returns the number of bytes read. 0 for a buffer with room means the end. Err is a
    /// failure: it gives no byte and raises the count.
    fn read(&mut self, buffer: &mut [u8]) -> Result<usize, DeviceFault>
        ensures within { IfOk result (λ n. n ≤ length buffer.old) }
        ensures given { IfOk result
            (λ n. Gives (state self.old) (take n buffer.new) (state self.new)) }
        ensures end { result ≡ Ok 0 → 0 < length buffer.old → IsAtEnd (state self.old) }
        ensures none { OnErr result (GivesBytes (state self.old).bytes [] (state self.new).bytes) }
        ensures failed { OnErr result (HasFailed (state self.old) (state self.new)) };

    /// The number of failures; it stays at 2^64 - 1 once it is there.
    fn failures(&self) -> u64
        ensures { result ≡ (state self.now).failures };
}

/// A device that bytes are written to.
pub trait Sink {
    /// The bytes written so far, if the sink has them in its contract, and the number of its failures.
    ghost state: { Self → DeviceState };

    /// Writes a beginning of the bytes and returns its length. Err is a failure and raises the count; the sink took a
    /// beginning of the bytes then too. 0 for bytes that are not empty also counts as a failure.
    fn write(&mut self, bytes: &[u8]) -> Result<usize, DeviceFault>
        ensures within { IfOk result (λ n. n ≤ length bytes.now) }
        ensures taken { IfOk result (λ n. 0 < n
            → Takes (state self.old) (take n bytes.now) (state self.new)) }
        ensures none { result ≡ Ok 0 → TakesBytes (state self.old).bytes [] (state self.new).bytes }
        ensures stuck { result ≡ Ok 0 → 0 < length bytes.now
            → HasFailed (state self.old) (state self.new) }
        ensures failed { OnErr result (FailsAmid (state self.old) bytes.now (state self.new)) };

    /// The number of failures; it stays at 2^64 - 1 once it is there.
    fn failures(&self) -> u64
        ensures { result ≡ (state self.now).failures };
}

/// Writes all of the bytes. Err if the sink failed; it has taken a beginning of them then.
pub fn put<W: Sink>(out: &mut W, bytes: &[u8]) -> Result<(), DeviceFault>
    ensures { Puts (W.state out.old) bytes.now result (W.state out.new) }
{
    let mut rest = bytes;
    while !rest.is_empty() {
        let Ok(count) = out.write(rest) else {
            return Err(DeviceFault);
        };
        if count == 0 {
            return Err(DeviceFault);
        }
        let (_, left) = rest.split_at(count);
        rest = left;
    }
    Ok(())
}
