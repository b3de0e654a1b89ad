// The registers and stack slots that an affine space tracks, by their rank: vectors over them, and what an effect
// leaves in each.
#![tactic(auto)]

mod effects;
mod tracked;
mod vector;

pub use effects::{change_at, end_of, first_written, is_read, source, takes};
pub use tracked::{TRACKED, TRACKED_REGISTERS, TRACKED_SLOTS, is_half, variable};
pub use vector::{Vector, common_divisor, multiple};
