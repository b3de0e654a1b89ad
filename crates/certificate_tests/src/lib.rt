// The tests of certificates: what only calls can show. Each public call answers once, devices fail, and memory is
// refused. The texts themselves are tried in tests/cases.
#![tactic(auto)]

#[cfg(test)]
mod accessors;
#[cfg(test)]
mod both_ways;
#[cfg(test)]
mod devices;
#[cfg(test)]
mod memory;
#[cfg(test)]
mod parts;
#[cfg(test)]
mod samples;
