// What the parts of a report have in common: pages in memory, pictures, links and ranges, and what is shown.
#![tactic(auto)]

mod digests;
mod instructions;
mod links;
mod maps;
mod page;
mod ranges;
mod reported;
mod style;
mod ways;

pub use digests::{bytes_digest, certificate_digest, digits_of};
pub use links::side_words;
pub use maps::{Picture, Spot, add_picture};
pub use page::{Page, grouped, ratio, share_text, width_text, with};
pub use ranges::ram_word;
pub use reported::{FileNames, Reported};
pub use style::STYLE;
pub use ways::Ways;
