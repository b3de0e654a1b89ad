// Laws of the machine (docs/BOARD.md, docs/SHAPES.md): its numbers stay in range, what each instruction does to the
// words on the stack, and how the phase advances. Each law is the contract of a function with an empty body.
#![tactic(auto)]

mod clock;
mod commits;
mod instructions;
mod machine;
mod moves;
mod words;

pub use clock::{
    acceptances_begin_early, events_move_the_clock, phases_follow_the_time,
    time_changes_the_clock_alone,
};
pub use commits::{
    commits_stay_in_range, drafts_meet_no_trap, drafts_reach_the_board, missed_bytes_stay,
    time_keeps_words,
};
pub use instructions::{
    acceptances_lay_words, exchanges_swap_words, instructions_are_told_apart,
    loads_of_sp_begin_a_stack, other_instructions_keep_words, pops_take_words, pushes_lay_words,
};
pub use machine::{events_take_time, states_stay_in_range, steps_are_single};
pub use moves::{
    drafts_keep_words, exchange_moves_swap_words, pop_moves_take_words, push_moves_lay_words,
    stackless_moves_keep_sp,
};
pub use words::{words_are_ordered, words_are_their_bytes, words_place_sp};
