// Lines on a sink, without taking memory.

use std::fmt;
use std::fmt::{Display, Write};
use texts::{Sink, put};

/// A writer over a sink.
#[derive(Drop)]
struct Lines<'n, N: Sink> {
    notes: &'n mut N,
}

impl<'n, N: Sink> Write for Lines<'n, N> {
    fn write_str(&mut self, text: &str) -> fmt::Result {
        match put(self.notes, text.as_bytes()) {
            Ok(()) => Ok(()),
            Err(_) => Err(fmt::Error),
        }
    }
}

/// Writes a line. What a sink that fails does not take is left out.
pub fn report<N: Sink>(notes: &mut N, line: impl Display + Drop) {
    let mut lines = Lines { notes };
    let _told = writeln!(lines, "{line}");
}

/// Writes a text without a line feed. What a sink that fails does not take is left out.
pub fn print<N: Sink>(out: &mut N, text: impl Display + Drop) {
    let mut lines = Lines { notes: out };
    let _told = write!(lines, "{text}");
}
