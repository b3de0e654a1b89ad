// The addresses from which an instruction reads data.
#![tactic(auto)]

mod reads;

pub use reads::data_reads;
