// The tests of affine and of derived_parts, worked by hand from docs/CHECKER.md and what the Z80's instructions do.
#![tactic(auto)]

#[cfg(test)]
mod choosing;
#[cfg(test)]
mod copies;
#[cfg(test)]
mod derived;
#[cfg(test)]
mod grounds;
#[cfg(test)]
mod instructions;
#[cfg(test)]
mod limits;
#[cfg(test)]
mod loops;
#[cfg(test)]
mod rewritten;
#[cfg(test)]
mod setting;
#[cfg(test)]
mod sums;
