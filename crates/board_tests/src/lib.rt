// The tests of the board, worked by hand.
#![tactic(auto)]

#[cfg(test)]
mod acceptance;
#[cfg(test)]
mod latches;
#[cfg(test)]
mod machine;
#[cfg(test)]
mod rows;
