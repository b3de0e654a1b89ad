// The address map of a board (docs/BOARD.md, "Addresses"): zones, the class of each address, the cells of RAM, and the
// ROM with its starts.
#![tactic(auto)]

mod boards;
mod cell;
mod fault;
mod list;
mod map;
mod ranges;
mod region;
mod rom;
mod starts;
mod zone;

pub use cell::{Cell, RamKind};
pub use fault::MapFault;
pub use map::{Class, Input, Map, ReadClass, WriteClass};
pub use region::Region;
pub use rom::{ROM_LIMIT, Rom};
pub use starts::Starts;
pub use zone::{WriteUse, Zone};
