// The tests of intervals, loop_bounds and stack_shape, worked by hand.
#![tactic(auto)]

#[cfg(test)]
mod bounds;
#[cfg(test)]
mod ranges;
#[cfg(test)]
mod shapes;
