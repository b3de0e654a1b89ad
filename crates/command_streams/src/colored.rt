// Lines in color.

ghost use Rattle.std.specs.Prelude.{None};

use arrayvec::ArrayVec;
use texts::{DeviceFault, Sink, put};

/// The longest line that is colored whole. A longer one is colored by its first part.
const ROOM: usize = 256;

/// A color of a terminal (ECMA-48, "Select graphic rendition").
#[derive(Clone, Copy)]
enum Color {
    Plain,
    Red,
    Yellow,
}

impl Color {
    /// The color of a line: yellow for a warning, red for what ended the command.
    fn of(line: &[u8]) -> Color {
        let text = match str::from_utf8(line) {
            Ok(text) => text,
            Err(_) => return Color::Plain,
        };
        if text.contains(": warning: ") {
            return Color::Yellow;
        }
        let is_end = text.starts_with("device error")
            || text.starts_with("out of memory")
            || text.starts_with("bad ")
            || text.contains(": refused ");
        if is_end { Color::Red } else { Color::Plain }
    }

    /// What begins it, and what ends it.
    fn codes(self) -> (&'static [u8], &'static [u8]) {
        match self {
            Color::Plain => (b"", b""),
            Color::Red => (b"\x1B[31m", b"\x1B[0m"),
            Color::Yellow => (b"\x1B[33m", b"\x1B[0m"),
        }
    }
}

/// A line that is passed on in color once it is whole.
#[derive(Drop)]
struct LineInColor<W: Sink> {
    inner: W,
    text: ArrayVec<u8, ROOM>,
}

impl<W: Sink> LineInColor<W> {
    /// Passes on the bytes of the line so far.
    fn flush(&mut self) -> Result<(), DeviceFault> {
        let text = self.text.as_slice();
        let (text, end) = match text.strip_suffix(b"\n") {
            Some(text) => (text, true),
            None => (text, false),
        };
        let (before, after) = Color::of(text).codes();
        put(&mut self.inner, before)?;
        put(&mut self.inner, text)?;
        put(&mut self.inner, after)?;
        if end {
            put(&mut self.inner, b"\n")?;
        }
        Ok(())
    }

    /// Adds a byte, and passes the line on if it is whole or if there is no more room.
    fn add(&mut self, byte: u8) -> Result<(), DeviceFault> {
        if self.text.is_full() {
            self.flush()?;
            self.text.clear();
        }
        let _fits = self.text.try_push(byte);
        if byte == b'\n' {
            self.flush()?;
            self.text.clear();
        }
        Ok(())
    }

    /// Adds bytes.
    fn add_all(&mut self, bytes: &[u8]) -> Result<(), DeviceFault> {
        for byte in bytes {
            self.add(*byte)?;
        }
        Ok(())
    }
}

/// A sink that passes lines to another one, in color if that is wanted. With color a line is passed on once it is
/// whole.
#[derive(Drop)]
pub struct ColoredLines<W: Sink> {
    line: LineInColor<W>,
    is_colored: bool,
    failures: u64,
}

impl<W: Sink> ColoredLines<W> {
    /// A sink that passes lines to another one, in color where that is wanted.
    pub fn new(inner: W, is_colored: bool) -> ColoredLines<W> {
        ColoredLines {
            line: LineInColor {
                inner,
                text: ArrayVec::new(),
            },
            is_colored,
            failures: 0,
        }
    }

    /// The other sink.
    pub fn into_inner(self) -> W {
        self.line.inner
    }
}

impl<W: Sink> Sink for ColoredLines<W> {
    ghost state = { λ s. record { bytes = None; failures = s.failures } };

    fn write(&mut self, bytes: &[u8]) -> Result<usize, DeviceFault> {
        let written = if self.is_colored {
            self.line.add_all(bytes)
        } else {
            put(&mut self.line.inner, bytes)
        };
        match written {
            Ok(()) => Ok(bytes.len()),
            Err(_) => {
                self.failures = self.failures.saturating_add(1);
                Err(DeviceFault)
            }
        }
    }

    fn failures(&self) -> u64 {
        self.failures
    }
}
