// Ranges of bytes, words and register pairs, with the abstract operations of the Z80 on them (docs/CHECKER.md, "Ranges
// and their normal form").
#![tactic(auto)]

mod bound;
mod domain;
mod logic;
mod pair;
mod range;
mod reg_pair;
mod sums;

pub use bound::Bound;
pub use domain::Domain;
pub use pair::Pair;
pub use range::{ByteRange, Range, WordRange};
pub use reg_pair::RegPair;
