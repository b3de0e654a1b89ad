// Memory is refused once, at each growth in turn (`tools/memory.sh view_tests`).

use crate::sample::{NAMES, write_sample};
use listing::ListFault;
use memory_devices::Taken;
use std::test::Fail;

/// Whether the listing was written whole. If not, a line reports it.
fn is_written(rt: &HostRuntime, out: &mut Taken) -> Result<bool, Fail> {
    match write_sample(rt.alloc(), NAMES, out) {
        Some(Ok(())) => Ok(true),
        // Where the sink itself gets no memory, it fails.
        Some(Err(ListFault::NoMemory | ListFault::Device)) => {
            println!(rt; "refused in write_listing")?;
            Ok(false)
        }
        None => {
            println!(rt; "refused before write_listing")?;
            Ok(false)
        }
    }
}

/// Where memory is refused to one call, the other one gives the whole listing, and the text before is its beginning.
/// Long names do not make lines longer than 100 columns.
#[test]
fn written_again(rt: HostRuntime) -> Result<(), Fail> {
    let (mut one, mut other) = (Taken::new(rt.alloc()), Taken::new(rt.alloc()));
    let is_one_whole = is_written(&rt, &mut one)?;
    let is_other_whole = is_written(&rt, &mut other)?;
    assert!(rt; is_one_whole || is_other_whole);
    let (whole, part) = if is_one_whole {
        (one, other)
    } else {
        (other, one)
    };
    assert!(rt; whole.bytes.as_slice().starts_with(part.bytes.as_slice()));
    assert!(rt; is_one_whole != is_other_whole || part.bytes.len() == whole.bytes.len());
    let Ok(text) = str::from_utf8(whole.bytes.as_slice()) else {
        return Err(Fail::new("no text"));
    };
    for line in text.lines() {
        assert!(rt; line.len() <= 100, "{line}");
    }
    Ok(())
}
