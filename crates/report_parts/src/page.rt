// A part of a page in memory.

ghost use Rattle.std.specs.Prelude.{None};

use html::{Attribute, close_tag, open_tag, write_text};
use std::alloc::{AllocError, Global};
use texts::{DeviceFault, Sink};

/// HTML in memory. It is put together of markup, which is constant, and of texts, whose characters cannot be read as
/// markup. Where memory is refused, nothing more is added, and `bytes` says so in the end.
#[derive(Drop)]
pub struct Page {
    alloc: Global,
    bytes: Vec<u8>,
    /// How often memory was refused.
    failures: u64,
}

/// The bytes of a page as a sink. It fails from the time on that memory was refused.
impl Sink for Page {
    ghost state = { λ s. record { bytes = None; failures = s.failures } };

    fn write(&mut self, bytes: &[u8]) -> Result<usize, DeviceFault> {
        if self.failures == 0 && self.bytes.extend_from_slice(bytes).is_ok() {
            return Ok(bytes.len());
        }
        self.failures = self.failures.saturating_add(1);
        Err(DeviceFault)
    }

    fn failures(&self) -> u64 {
        self.failures
    }
}

/// An attribute with a value.
pub fn with<'a>(name: &'static str, value: &'a str) -> Attribute<'a> {
    Attribute {
        name,
        value: value.as_bytes(),
    }
}

impl Page {
    /// An empty page. Its bytes take their memory from this allocator.
    pub fn new(alloc: Global) -> Page {
        Page {
            alloc,
            bytes: Vec::new(alloc),
            failures: 0,
        }
    }

    /// The allocator.
    pub fn alloc(&self) -> Global {
        self.alloc
    }

    /// The bytes.
    ///
    /// # Errors
    ///
    /// `AllocError` where memory was refused for a byte of the page.
    pub fn bytes(&self) -> Result<&[u8], AllocError> {
        if self.failures == 0 {
            Ok(self.bytes.as_slice())
        } else {
            Err(AllocError)
        }
    }

    /// Adds markup as it is.
    pub fn raw(&mut self, markup: &'static str) {
        let _ = self.write(markup.as_bytes());
    }

    /// Adds text.
    pub fn text(&mut self, text: &str) {
        let _ = write_text(text.as_bytes(), self);
    }

    /// Adds a text that was just made, unless memory was refused for it.
    pub fn made(&mut self, text: Result<String, AllocError>) {
        match text {
            Ok(text) => self.text(text.as_str()),
            Err(_) => self.failures = self.failures.saturating_add(1),
        }
    }

    /// Adds the opening tag of an element.
    pub fn open(&mut self, element: &'static str, attributes: &[Attribute]) {
        let _ = open_tag(element, attributes, self);
    }

    /// Adds the closing tag of an element.
    pub fn close(&mut self, element: &'static str) {
        let _ = close_tag(element, self);
    }

    /// Adds a number with its digits in groups: `12,396`.
    pub fn number(&mut self, number: u64) {
        self.made(grouped(self.alloc, number));
    }

    /// Adds a number and a noun, with an `s` if it is not 1.
    pub fn count(&mut self, number: u64, noun: &'static str) {
        self.number(number);
        self.raw(" ");
        self.raw(noun);
        if number != 1 {
            self.raw("s");
        }
    }

    /// Adds an address: four hexadecimal digits.
    pub fn address(&mut self, address: u16) {
        self.made(format!(in self.alloc; "{address:04X}"));
    }

    /// Adds a share in percent: `24.8 %`, or `-` of nothing.
    pub fn share(&mut self, part: u64, whole: u64) {
        self.made(share_text(self.alloc, part, whole));
    }
}

/// A number with its digits in groups.
pub fn grouped(alloc: Global, number: u64) -> Result<String, AllocError> {
    let digits = format!(in alloc; "{number}")?;
    let mut text = String::new(alloc);
    let mut left = digits.len();
    for digit in digits.chars() {
        if !text.is_empty() && left % 3 == 0 {
            text.push(',')?;
        }
        text.push(digit)?;
        left = left.saturating_sub(1);
    }
    Ok(text)
}

/// A part of a whole, as a number of these parts, rounded.
pub fn ratio(part: u64, whole: u64, of: u64) -> u64 {
    if whole == 0 {
        return 0;
    }
    let product = part.saturating_mul(of).saturating_add(whole / 2);
    product / whole
}

/// A share in percent.
pub fn share_text(alloc: Global, part: u64, whole: u64) -> Result<String, AllocError> {
    if whole == 0 {
        return String::from_str(alloc, "-");
    }
    let tenths = ratio(part, whole, 1000);
    format!(in alloc; "{}.{} %", tenths / 10, tenths % 10)
}

/// A width of a style: `width:12.50%`.
pub fn width_text(alloc: Global, part: u64, whole: u64) -> Result<String, AllocError> {
    let hundredths = ratio(part, whole, 10_000);
    format!(in alloc; "width:{}.{:02}%", hundredths / 100, hundredths % 100)
}
