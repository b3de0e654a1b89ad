// The listing of an accepted program (docs/LISTING.md): each instruction with what its rows say, and the bytes that are
// never reached.
#![tactic(auto)]

mod columns;
mod fault;
mod gaps;
mod instructions;
mod known;
mod procedures;
mod timing;
mod view;
mod writing;

pub use fault::ListFault;
pub use gaps::Gap;
pub use instructions::ListedInstr;
pub use procedures::{kind_word, pair_name};
pub use view::View;
pub use writing::{Listing, procs_of, write_listing};
