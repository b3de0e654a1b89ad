// Sinks that fail in mid-stream.

use crate::sample::{NAMES, write_sample};
use listing::ListFault;
use memory_devices::Taken;
use std::test::Fail;

/// A sink that fails at some call got a beginning.
#[test]
fn failing(rt: HostRuntime) -> Result<(), Fail> {
    let mut whole = Taken::new(rt.alloc());
    assert!(rt; write_sample(rt.alloc(), NAMES, &mut whole) == Some(Ok(())));
    for calls in [0, 1, 2, 5, 50, 90] {
        let mut out = Taken::failing(rt.alloc(), 4096, calls);
        let written = write_sample(rt.alloc(), NAMES, &mut out);
        assert!(rt; written == Some(Err(ListFault::Device)));
        assert!(rt; whole.bytes.as_slice().starts_with(out.bytes.as_slice()));
    }
    Ok(())
}
