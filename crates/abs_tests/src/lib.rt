// The tests of abstract states, of the abstract step, and of the refined step: its flag parts, conditions and linear
// effects. They are worked by hand from docs/CHECKER.md and UM0080.
#![tactic(auto)]

#[cfg(test)]
mod claims;
#[cfg(test)]
mod conditions;
#[cfg(test)]
mod effects;
#[cfg(test)]
mod narrowing;
#[cfg(test)]
mod plain_rows;
#[cfg(test)]
mod reading;
#[cfg(test)]
mod refined_rows;
#[cfg(test)]
mod states;
#[cfg(test)]
mod steps;
