// Tests of one row that need no certificate: where its data writes go, how it sets SP, and which pair an exit does not
// give back (docs/CHECKER.md, "The table of reasons"). The checker and the analysis ask them.
#![tactic(auto)]

mod saved;
mod stack_pointer;
mod writes;

pub use saved::lost_at;
pub use stack_pointer::{sets_sp, sets_top};
pub use writes::{
    all_keep, all_miss_region, all_miss_rom, all_miss_unmapped, find_armed, none_enables,
};
