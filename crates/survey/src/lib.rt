// What the rows of an accepted certificate say together about its program: the rows at an address, the heads of runs of
// instructions, calls, what procedures keep, and which bytes of the ROM are code or data.
#![tactic(auto)]

mod calls;
mod kept;
mod reads;
mod rows;
mod surveying;

pub use calls::{CallPlace, CallPlaces};
pub use kept::{KeptPairs, PAIRS};
pub use rows::{RowAt, RowsByAddress};
pub use surveying::Survey;
