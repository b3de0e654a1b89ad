// What is wrong with a ROM or a certificate as a whole: reasons 1, 2, 3, 11 and 18.

use crate::wording::add_line;
use address_map::Region;
use analysis::FlowFault;
use cert_lines::WORK_LEN;

/// The numbers that reasons of the whole are about.
#[derive(Clone, Copy)]
pub struct Bounds {
    pub region: Region,
    /// The first address of work RAM.
    pub work_start: u16,
    /// The bytes of stack of main code and of the NMI routine, where they are known.
    pub depths: Option<(u32, u32)>,
    /// The T-states of the NMI routine, where they are known.
    pub time: Option<u32>,
    pub budget: Option<u16>,
}

/// Adds the length of a ROM that cannot be judged. `wanted` is the length that a certificate says.
///
/// # Errors
///
/// `NoMemory` where memory was refused.
pub fn add_rom_lengths(
    text: &mut String,
    len: usize,
    wanted: Option<u16>,
) -> Result<(), FlowFault> {
    match wanted {
        Some(wanted) if len > 0 && len <= 16_384 => add_line(
            text,
            format_args!("the ROM has {len} bytes, the certificate is for {wanted}"),
        ),
        _ if len == 0 => add_line(text, "the ROM has 0 bytes"),
        _ => add_line(text, "the ROM has more than 16384 bytes, which is the most"),
    }
}

/// Adds which part of the rule for the region fails.
///
/// # Errors
///
/// `NoMemory` where memory was refused.
pub fn add_region(text: &mut String, bounds: &Bounds) -> Result<(), FlowFault> {
    let (low, top, start) = (bounds.region.low, bounds.region.top, bounds.work_start);
    let end = start.saturating_add(WORK_LEN);
    if low < start {
        add_line(
            text,
            format_args!("low is {low:04X}, below the work RAM, which begins at {start:04X}"),
        )
    } else if low >= top {
        add_line(
            text,
            format_args!("low is {low:04X}, not below top, which is {top:04X}"),
        )
    } else if top > end {
        add_line(
            text,
            format_args!("top is {top:04X}, above the end of the work RAM, {end:04X}"),
        )
    } else {
        let last = top.saturating_sub(1);
        add_line(
            text,
            format_args!("a kept cell lies in the region {low:04X}-{last:04X}"),
        )
    }
}

/// Adds that the rows at an entry ask for too much.
///
/// # Errors
///
/// `NoMemory` where memory was refused.
pub fn add_entry(text: &mut String, address: u16) -> Result<(), FlowFault> {
    if address == 0 {
        add_line(
            text,
            "no row at 0000 holds after a reset, where nothing is known: a fact or a split there asks for more",
        )
    } else {
        add_line(
            text,
            "no row at 0066 holds when an NMI comes, where nothing is known but the cells: a fact or a split there asks for more",
        )
    }
}

/// Adds the two numbers of a reason that compares them.
///
/// # Errors
///
/// `NoMemory` where memory was refused.
pub fn add_whole(
    text: &mut String,
    reason: abs_step::Reason,
    bounds: &Bounds,
) -> Result<(), FlowFault> {
    let room = bounds.region.top.saturating_sub(bounds.region.low);
    match reason {
        abs_step::Reason::StackDepth => {
            let Some((main, routine)) = bounds.depths else {
                return Ok(());
            };
            let both = main.saturating_add(routine);
            let low = u32::from(bounds.region.top).saturating_sub(both);
            add_line(
                text,
                format_args!(
                    "main {main} + NMI {routine} = {both} bytes of stack; the region has {room}: low = 0x{low:04X} would do"
                ),
            )
        }
        abs_step::Reason::Budget => {
            let budget = bounds.budget.unwrap_or(0);
            match bounds.time {
                Some(time) => add_line(
                    text,
                    format_args!("the NMI routine takes {time} T-states of a budget of {budget}"),
                ),
                None => add_line(
                    text,
                    format_args!(
                        "the NMI routine takes more than 50665 T-states, and its budget is {budget}: a second NMI would come while it runs"
                    ),
                ),
            }
        }
        _ => Ok(()),
    }
}
