// Words and numbers of a line.

/// The words of a line.
#[derive(Drop)]
pub(crate) struct Words<'t> {
    rest: &'t str,
}

impl<'t> Words<'t> {
    pub(crate) fn of(line: &'t str) -> Words<'t> {
        Words { rest: line }
    }

    /// The next word; an empty text at the end.
    pub(crate) fn word(&mut self) -> &'t str {
        let text = self.rest.trim_start();
        match text.split_once(' ') {
            Some((word, rest)) => {
                self.rest = rest;
                word
            }
            None => {
                self.rest = "";
                text
            }
        }
    }

    /// The next word as a number in decimal.
    pub(crate) fn decimal(&mut self) -> Option<u64> {
        decimal(self.word())
    }

    /// The next word as an address.
    pub(crate) fn address(&mut self) -> Option<u64> {
        address(self.word())
    }

    /// What follows the words that were taken.
    pub(crate) fn rest(&self) -> &'t str {
        self.rest.trim()
    }
}

/// A number in decimal.
pub(crate) fn decimal(text: &str) -> Option<u64> {
    text.parse().ok()
}

/// A word of four upper-case hexadecimal digits.
pub(crate) fn address(text: &str) -> Option<u64> {
    if text.len() != 4 || !text.bytes().all(is_digit) {
        return None;
    }
    u64::from_str_radix(text, 16).ok()
}

fn is_digit(byte: u8) -> bool {
    byte.is_ascii_digit() || (b'A'..=b'F').contains(&byte)
}

/// The characters of a line from one column to another.
pub(crate) fn columns(line: &str, from: usize, to: usize) -> &str {
    let start = byte_at(line, from);
    let end = byte_at(line, to);
    line.get(start..end).unwrap_or("").trim()
}

/// Where the character in a column begins; the end of the line if there is none.
fn byte_at(line: &str, column: usize) -> usize {
    match line.char_indices().nth(column) {
        Some((at, _)) => at,
        None => line.len(),
    }
}
