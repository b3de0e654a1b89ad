// The tests of longest walks and potentials: rows worked out by hand, and refused memory.
#![tactic(auto)]

#[cfg(test)]
mod bounds_of_rows;
#[cfg(test)]
mod cases;
#[cfg(test)]
mod memory;
#[cfg(test)]
mod ways;
#[cfg(test)]
mod worked;
