// Whether a potential pays for a step in version 3, where a variable may become a linear (docs/CHECKER.md, "Paying").
#![tactic(auto)]

mod paying;

pub use paying::pays_either_way;
