// The tests of symbols, of notes in listings and of annotations that no command can show: what is given to a writer
// that infers, listings that are cut, and refused memory. The rest is in tests/cases and tools/program.sh.
#![tactic(auto)]

#[cfg(test)]
mod cut;
#[cfg(test)]
mod given;
#[cfg(test)]
mod memory;
