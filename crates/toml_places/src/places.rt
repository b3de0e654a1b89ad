// The places of a text.

use crate::scanner::Scanner;
use std::alloc::{AllocError, Global};

/// Bytes of a text, by the offsets of the first one and of the one after the last.
#[derive(Clone, Copy, PartialEq, Eq)]
pub struct Span {
    pub start: usize,
    pub end: usize,
}

/// What stands at a node.
#[derive(Clone, Copy, PartialEq, Eq)]
pub enum NodeKind {
    /// A string, a number, a boolean or a date.
    Scalar,
    /// An array in brackets.
    Array,
    /// A table in braces.
    InlineTable,
    /// The header of a table, `[key]`. Its span is the header.
    Table,
    /// The header of a table of a list, `[[key]]`. Its span is the header.
    ListedTable,
}

/// A value or a header.
#[derive(Clone, Copy)]
pub struct Node {
    /// The number of the node that contains it; None at the top of the text.
    pub parent: Option<usize>,
    pub kind: NodeKind,
    /// The key, without quotes; of an element of an array an empty span.
    pub key: Span,
    /// The value, or the header.
    pub value: Span,
}

/// The nodes of a text, in its order.
#[derive(Drop)]
pub struct Places<'t> {
    text: &'t [u8],
    nodes: Vec<Node>,
}

impl<'t> Places<'t> {
    /// The nodes of a text. Where the text is no TOML, they are those before the fault. The error is refused memory.
    pub fn of(alloc: Global, text: &'t [u8]) -> Result<Places<'t>, AllocError> {
        let mut scanner = Scanner::new(alloc, text);
        scanner.scan()?;
        Ok(Places {
            text,
            nodes: scanner.into_nodes(),
        })
    }

    /// The nodes, in the order of the text.
    pub fn nodes(&self) -> &[Node] {
        self.nodes.as_slice()
    }

    /// The bytes of a span; none where it is not in the text.
    pub fn bytes(&self, span: Span) -> &'t [u8] {
        self.text.get(span.start..span.end).unwrap_or(b"")
    }

    /// The nodes with this parent, each with its number.
    pub fn children(&self, alloc: Global, parent: Option<usize>) -> Result<Vec<usize>, AllocError> {
        let mut found = Vec::new(alloc);
        for (number, node) in self.nodes.as_slice().iter().enumerate() {
            if node.parent == parent {
                found.push(number)?;
            }
        }
        Ok(found)
    }

    /// The first node with this parent and key.
    pub fn child(&self, parent: Option<usize>, key: &[u8]) -> Option<usize> {
        self.nodes.as_slice().iter().position(|node| node.parent == parent
            && self.bytes(node.key) == key)
    }

    /// The node with a number.
    pub fn node(&self, number: usize) -> Option<&Node> {
        self.nodes.as_slice().get(number)
    }

    /// The line of an offset, counted from 1.
    pub fn line_of(&self, offset: usize) -> usize {
        let before = self.text.get(..offset.min(self.text.len())).unwrap_or(b"");
        before
            .iter()
            .filter(|byte| **byte == b'\n')
            .count()
            .saturating_add(1)
    }
}
