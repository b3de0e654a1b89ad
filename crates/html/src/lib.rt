// A writer of HTML: tags, attributes, and text whose characters cannot be read as markup (HTML Living Standard,
// "Writing HTML documents").
#![tactic(auto)]

mod characters;
mod tags;
mod text;

pub use tags::{Attribute, close_tag, open_tag};
pub use text::{text_has_no_markup, write_text};
