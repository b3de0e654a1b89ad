// Labels: shown names, and the bytes from them to an address.

use std::fmt;

/// A shown name at an address or up to 255 bytes below it. As a text it is `name` or `name+5`.
#[derive(Clone, Copy, PartialEq, Eq)]
pub struct Label<'a> {
    pub name: &'a str,
    /// The bytes from the name's address to the labelled one.
    pub offset: u8,
}

impl fmt::Display for Label<'_> {
    fn fmt<W: fmt::Write>(&self, f: &mut fmt::Formatter<W>) -> fmt::Result {
        let name = self.name;
        match self.offset {
            0 => write!(f, "{name}"),
            offset => write!(f, "{name}+{offset}"),
        }
    }
}
