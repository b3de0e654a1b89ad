// The tests of address maps (the boards' tables, faults of lists of zones, ranges of addresses) and of call_graph.
#![tactic(auto)]

#[cfg(test)]
mod calls;
#[cfg(test)]
mod maps;
