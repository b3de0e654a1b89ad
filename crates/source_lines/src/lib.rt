// The lines of an assembler's listing: their addresses, their source text, their labels, and the lines of the source
// that they show (docs/NOTES.md, "Listings"; docs/SYMBOLS.md, "Where an address is").
#![tactic(auto)]

mod address_names;
mod counting;
mod fault;
mod labels;
mod layout;
mod listing_lines;
mod locations;
mod source_text;

pub use address_names::{AddressNames, NamedAddress};
pub use fault::ListingFault;
pub use listing_lines::{ListingLine, SourceLines};
pub use locations::{Location, Locations};
pub use source_text::SourceText;
