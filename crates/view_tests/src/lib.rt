// The tests of views that no command shows: the texts of ranges, facts and HTML, data reads, streams in pieces, failing
// sinks, and refused memory.
#![tactic(auto)]

#[cfg(test)]
mod instructions;
#[cfg(test)]
mod memory;
#[cfg(test)]
mod ranges;
#[cfg(test)]
mod reads;
#[cfg(test)]
mod sample;
#[cfg(test)]
mod sinks;
#[cfg(test)]
mod streams;
#[cfg(test)]
mod written_texts;
