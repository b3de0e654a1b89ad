// Scans a text from its beginning to its end.

use crate::places::{Node, NodeKind, Span};
use std::alloc::{AllocError, Global};

/// Bytes that are passed over together.
#[derive(Clone, Copy)]
enum ByteClass {
    /// Blanks and tabs.
    Space,
    /// These and line ends.
    Blank,
    /// The rest of a line.
    Line,
    /// A key without quotes.
    Word,
    /// What may stand between the first part of a key and the sign after it.
    AfterKey,
    /// A value without quotes.
    Unquoted,
    Only(u8),
}

impl ByteClass {
    fn has(self, byte: u8) -> bool {
        match self {
            ByteClass::Space => matches!(byte, b' ' | b'\t'),
            ByteClass::Blank => matches!(byte, b' ' | b'\t' | b'\r' | b'\n'),
            ByteClass::Line => byte != b'\n',
            ByteClass::Word => byte.is_ascii_alphanumeric() || byte == b'_' || byte == b'-',
            ByteClass::AfterKey => !matches!(byte, b'=' | b']' | b'\n' | b',' | b'}'),
            ByteClass::Unquoted => {
                !matches!(byte, b',' | b']' | b'}' | b'#' | b'\n' | b'\r' | b' ')
            }
            ByteClass::Only(only) => byte == only,
        }
    }
}

/// A scan of a text.
#[derive(Drop)]
pub(crate) struct Scanner<'t> {
    text: &'t [u8],
    at: usize,
    nodes: Vec<Node>,
    /// The containers that are open, innermost last, by their numbers.
    open: Vec<usize>,
}

impl<'t> Scanner<'t> {
    pub(crate) fn new(alloc: Global, text: &'t [u8]) -> Scanner<'t> {
        Scanner {
            text,
            at: 0,
            nodes: Vec::new(alloc),
            open: Vec::new(alloc),
        }
    }

    pub(crate) fn into_nodes(self) -> Vec<Node> {
        self.nodes
    }

    /// The byte `ahead` bytes further; 0 after the end.
    fn byte(&self, ahead: usize) -> u8 {
        self.text
            .get(self.at.saturating_add(ahead))
            .copied()
            .unwrap_or(0)
    }

    fn go(&mut self, count: usize) {
        self.at = self.at.saturating_add(count).min(self.text.len());
    }

    fn is_at_end(&self) -> bool {
        self.at >= self.text.len()
    }

    /// Goes on over the bytes of a class.
    fn skip(&mut self, class: ByteClass) {
        let rest = self.text.get(self.at..).unwrap_or(b"");
        let count = rest
            .iter()
            .position(|byte| !class.has(*byte))
            .unwrap_or(rest.len());
        self.go(count);
    }

    /// Goes to the end of the line.
    fn skip_line(&mut self) {
        self.skip(ByteClass::Line);
    }

    /// Goes over blanks, line ends and comments.
    fn skip_blank(&mut self) {
        for _ in 0..self.text.len() {
            self.skip(ByteClass::Blank);
            if self.byte(0) != b'#' {
                return;
            }
            self.skip_line();
        }
    }

    fn skip_spaces(&mut self) {
        self.skip(ByteClass::Space);
    }

    /// Reads a string, which begins here. The span is what stands between the quotes.
    fn string(&mut self) -> Span {
        let quote = self.byte(0);
        let is_long = self.byte(1) == quote && self.byte(2) == quote;
        let width = if is_long { 3 } else { 1 };
        self.go(width);
        let start = self.at;
        for _ in 0..self.text.len() {
            if self.is_at_end() {
                break;
            }
            let is_end = self.byte(0) == quote
                && (!is_long || (self.byte(1) == quote && self.byte(2) == quote));
            if is_end {
                let end = self.at;
                self.go(width);
                // A long string may end in up to two quotes of its own.
                if is_long {
                    self.skip(ByteClass::Only(quote));
                }
                return Span { start, end };
            }
            let is_escape = quote == b'"' && self.byte(0) == b'\\';
            self.go(if is_escape { 2 } else { 1 });
        }
        Span {
            start,
            end: self.at,
        }
    }

    /// Reads a key, which begins here: its first part. The span is without quotes.
    fn key(&mut self) -> Span {
        let span = if matches!(self.byte(0), b'"' | b'\'') {
            self.string()
        } else {
            let start = self.at;
            self.skip(ByteClass::Word);
            Span {
                start,
                end: self.at,
            }
        };
        self.skip(ByteClass::AfterKey);
        span
    }

    /// Adds a node and returns its number.
    fn add(&mut self, node: Node) -> Result<usize, AllocError> {
        let number = self.nodes.len();
        self.nodes.push(node)?;
        Ok(number)
    }

    /// Scans the whole text.
    pub(crate) fn scan(&mut self) -> Result<(), AllocError> {
        let mut table = None;
        for _ in 0..self.text.len() {
            self.skip_blank();
            if self.is_at_end() {
                return Ok(());
            }
            if self.byte(0) == b'[' {
                table = Some(self.header()?);
            } else {
                let key = self.key();
                if self.byte(0) != b'=' {
                    return Ok(());
                }
                self.go(1);
                self.value(table, key)?;
            }
            self.skip_line();
        }
        Ok(())
    }

    /// Scans a header, which begins here.
    fn header(&mut self) -> Result<usize, AllocError> {
        let start = self.at;
        let is_listed = self.byte(1) == b'[';
        self.go(if is_listed { 2 } else { 1 });
        self.skip_spaces();
        let key = self.key();
        self.skip(ByteClass::Only(b']'));
        self.add(Node {
            parent: None,
            kind: if is_listed {
                NodeKind::ListedTable
            } else {
                NodeKind::Table
            },
            key,
            value: Span {
                start,
                end: self.at,
            },
        })
    }

    /// Scans the value of a key in a table, with all that it contains.
    fn value(&mut self, table: Option<usize>, key: Span) -> Result<(), AllocError> {
        let mut key = key;
        self.open.clear();
        for _ in 0..=self.text.len() {
            self.skip_blank();
            if self.is_at_end() {
                return Ok(());
            }
            let parent = self.open.last().copied().or(table);
            let here = Span {
                start: self.at,
                end: self.at,
            };
            match self.byte(0) {
                b'[' => self.open_container(parent, NodeKind::Array, key)?,
                b'{' => self.open_container(parent, NodeKind::InlineTable, key)?,
                b']' | b'}' => self.close_container(),
                b',' => self.go(1),
                _ if self.is_in_table() && key == here => {}
                _ => self.scalar(parent, key)?,
            }
            if self.open.is_empty() {
                return Ok(());
            }
            self.skip_blank();
            // Between the braces of a table each value has a key; an element of an array has none.
            key = Span {
                start: self.at,
                end: self.at,
            };
            if self.is_in_table() && !matches!(self.byte(0), b',' | b'}') {
                key = self.key();
                if self.byte(0) != b'=' {
                    return Ok(());
                }
                self.go(1);
            }
        }
        Ok(())
    }

    /// Whether the innermost open container is a table.
    fn is_in_table(&self) -> bool {
        match self.open.last() {
            Some(number) => match self.nodes.as_slice().get(*number) {
                Some(node) => node.kind == NodeKind::InlineTable,
                None => false,
            },
            None => false,
        }
    }

    fn open_container(
        &mut self,
        parent: Option<usize>,
        kind: NodeKind,
        key: Span,
    ) -> Result<(), AllocError> {
        let start = self.at;
        self.go(1);
        let number = self.add(Node {
            parent,
            kind,
            key,
            value: Span {
                start,
                end: self.at,
            },
        })?;
        self.open.push(number)?;
        Ok(())
    }

    fn close_container(&mut self) {
        self.go(1);
        let end = self.at;
        if let Some(number) = self.open.pop() {
            if let Some(node) = self.nodes.as_mut_slice().get_mut(number) {
                node.value.end = end;
            }
        }
    }

    fn scalar(&mut self, parent: Option<usize>, key: Span) -> Result<(), AllocError> {
        let start = self.at;
        if matches!(self.byte(0), b'"' | b'\'') {
            self.string();
        } else {
            self.go(1);
            self.skip(ByteClass::Unquoted);
        }
        self.add(Node {
            parent,
            kind: NodeKind::Scalar,
            key,
            value: Span {
                start,
                end: self.at,
            },
        })?;
        Ok(())
    }
}
