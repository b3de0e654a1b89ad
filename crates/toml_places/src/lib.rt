// Where the keys and values of a TOML text stand. It is a second look at a text that was read already, for messages and
// for edits that keep comments; it judges nothing.
#![tactic(auto)]

mod places;
mod scanner;

pub use places::{Node, NodeKind, Places, Span};
