// Annotations that were given, with what was found added: their comments and their order stay.

use crate::entries::FileEntry;
use annotations::Given;
use std::alloc::{AllocError, Global};
use toml_places::{NodeKind, Places};

/// How an entry stands to what was given.
#[derive(Clone, Copy, PartialEq, Eq)]
pub(crate) enum Standing {
    /// It was not given.
    New,
    Given,
    /// Another one was given in its place.
    Changed,
}

/// How an entry stands to what was given.
pub(crate) fn standing_of(entry: &FileEntry, given: &Given) -> Standing {
    match entry {
        FileEntry::Inline(at) => given_if(given.inlines.contains(at)),
        FileEntry::Context(at) => given_if(given.contexts.contains(at)),
        FileEntry::Turns(note) => given_if(given.turns.iter().any(|other| other.head == note.head)),
        FileEntry::Fact(note) => given_if(
            given
                .facts
                .iter()
                .any(|other| other.at == note.at && other.fact == note.fact),
        ),
        FileEntry::Range(note) => given_if(
            given.ranges.iter().any(|other| other.at == note.at && other.variable == note.variable),
        ),
        FileEntry::Loop(note) => given_if(given.loops.iter().any(|other| other.at == note.at)),
        FileEntry::Split(split) => match given.splits.iter().find(|other| other.at == split.at) {
            Some(other) if other.parts.as_slice() == split.parts.as_slice() => Standing::Given,
            Some(_) => Standing::Changed,
            None => Standing::New,
        },
        FileEntry::Cell(cell) => match given.cells.iter().find(|other| other.at == cell.at) {
            Some(other) if other.range == cell.range => Standing::Given,
            Some(_) => Standing::Changed,
            None => Standing::New,
        },
    }
}

fn given_if(is_given: bool) -> Standing {
    if is_given {
        Standing::Given
    } else {
        Standing::New
    }
}

/// A text that is put into another one.
#[derive(Drop)]
struct Insertion {
    /// The offset at which it stands.
    at: usize,
    text: String,
}

/// Given annotations to which entries are added.
#[derive(Drop)]
pub(crate) struct Extension<'t> {
    alloc: Global,
    text: &'t str,
    places: Places<'t>,
    insertions: Vec<Insertion>,
    /// What stands after the given text.
    after: String,
}

impl<'t> Extension<'t> {
    pub(crate) fn of(alloc: Global, text: &'t str) -> Result<Extension<'t>, AllocError> {
        Ok(Extension {
            alloc,
            text,
            places: Places::of(alloc, text.as_bytes())?,
            insertions: Vec::new(alloc),
            after: String::new(alloc),
        })
    }

    /// The keys about the whole ROM that stand in the given text.
    pub(crate) fn keys(&self) -> Result<Vec<&'static str>, AllocError> {
        let mut keys = Vec::new(self.alloc);
        for key in ["low", "top", "nmi", "budget", "map"] {
            if self.places.child(None, key.as_bytes()).is_some() {
                keys.push(key)?;
            }
        }
        Ok(keys)
    }

    /// Adds an entry: its comment, and its lines, which begin with a header. Where the given text has the list as an
    /// array, the entry becomes an element of it.
    pub(crate) fn add(&mut self, comment: &str, lines: &str) -> Result<(), AllocError> {
        let (header, inner) = lines.split_once('\n').unwrap_or((lines, ""));
        let key = header.trim_matches(|sign| sign == '[' || sign == ']');
        let array = match self.places.child(None, key.as_bytes()) {
            Some(number) => match self.places.node(number) {
                Some(node) if node.kind == NodeKind::Array => Some((number, node.value.end)),
                _ => None,
            },
            None => None,
        };
        match array {
            Some((number, end)) => self.add_element(number, end.saturating_sub(1), comment, inner),
            None => {
                self.after.push_str("\n")?;
                self.after.push_str(comment)?;
                self.after.push_str(lines)?;
                Ok(())
            }
        }
    }

    /// Adds an element to an array, whose bracket closes at an offset.
    fn add_element(
        &mut self,
        array: usize,
        close: usize,
        comment: &str,
        inner: &str,
    ) -> Result<(), AllocError> {
        let alloc = self.alloc;
        let mut text = String::new(alloc);
        if !self
            .insertions
            .iter()
            .any(|insertion| insertion.at == close)
        {
            self.separate(array, close)?;
            let before = self.text.get(..close).unwrap_or("");
            let line = before.rsplit('\n').next().unwrap_or("");
            if !line.trim().is_empty() {
                text.push_str("\n")?;
            }
        }
        for line in comment.lines() {
            text.push_str("    ")?;
            text.push_str(line)?;
            text.push_str("\n")?;
        }
        text.push_str("    { ")?;
        for (place, line) in inner.lines().enumerate() {
            if place > 0 {
                text.push_str(", ")?;
            }
            text.push_str(line)?;
        }
        text.push_str(" },\n")?;
        self.insertions.push(Insertion { at: close, text })?;
        Ok(())
    }

    /// Puts a comma after the last element of an array, if there is none.
    fn separate(&mut self, array: usize, close: usize) -> Result<(), AllocError> {
        let elements = self.places.children(self.alloc, Some(array))?;
        let Some(last) = elements.last() else {
            return Ok(());
        };
        let Some(node) = self.places.node(*last) else {
            return Ok(());
        };
        let end = node.value.end;
        let rest = self.text.get(end..close).unwrap_or("");
        let has_comma = rest
            .lines()
            .any(|line| line.split('#').next().unwrap_or("").contains(','));
        if !has_comma {
            let text = String::from_str(self.alloc, ",")?;
            self.insertions.push(Insertion { at: end, text })?;
        }
        Ok(())
    }

    /// The whole text: a head, the given text with what was put into it, and the entries that were added at its end.
    pub(crate) fn into_text(self, head: &str) -> Result<String, AllocError> {
        let mut insertions = self.insertions;
        insertions.sort_by_key(|insertion| insertion.at)?;
        let mut made = String::from_str(self.alloc, head)?;
        let mut from = 0;
        for insertion in insertions.as_slice() {
            made.push_str(self.text.get(from..insertion.at).unwrap_or(""))?;
            made.push_str(insertion.text.as_str())?;
            from = insertion.at;
        }
        made.push_str(self.text.get(from..).unwrap_or(""))?;
        if !made.ends_with('\n') {
            made.push_str("\n")?;
        }
        made.push_str(self.after.as_str())?;
        Ok(made)
    }
}
