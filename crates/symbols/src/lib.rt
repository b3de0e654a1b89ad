// Names for addresses, read from the symbol files that assemblers write (docs/SYMBOLS.md).
#![tactic(auto)]

mod closest;
mod definitions;
mod fault;
mod label;
mod line;
mod name;
mod numbers;
mod resolve;
mod symbols;

pub use closest::Closest;
pub use fault::{ResolveFault, SymbolFault};
pub use label::Label;
pub use name::is_shown;
pub use numbers::number;
pub use symbols::{MAX_TEXT, Symbols};
