// The lines that say what is wrong at a refused row (docs/EXPLAIN.md).
#![tactic(auto)]

mod rows;
mod stack;
mod ways;
mod whole;
mod wording;
mod writes;

pub use rows::TargetRow;
pub use stack::{
    add_decode, add_halt, add_io, add_misfit, add_reached, add_saved, add_sp_write, add_unset,
};
pub use ways::{
    add_computed, add_lacking, add_uncovered, facts_of, jump_pair, proc_of_next, rows_at,
};
pub use whole::{Bounds, add_entry, add_region, add_rom_lengths, add_whole};
pub use wording::{NamedInstr, PlacedInstr, RangeText, Wording, add_line};
pub use writes::{add_write, is_astray};
