// The layouts of listings: where the lines of each assembler have the address, the bytes and the source text
// (docs/NOTES.md, "Listings").

/// The assembler that wrote a listing.
#[derive(Clone, Copy)]
pub(crate) enum Layout {
    Z80asm,
    Sjasmplus,
    Gas,
    Crasm,
    Sdcc,
}

const LAYOUTS: [Layout; 5] = [
    Layout::Z80asm,
    Layout::Sjasmplus,
    Layout::Gas,
    Layout::Crasm,
    Layout::Sdcc,
];

/// With these blanks a line of SDCC begins that has no address.
const SDCC_WITHOUT_ADDRESS: &[u8] = b"            ";

/// A line of a listing that shows a line of source.
#[derive(Clone, Copy)]
pub(crate) struct Shown<'a> {
    /// The address of the line's bytes or, without bytes, of the next ones. None where the listing does not say.
    pub(crate) address: Option<u16>,
    /// Whether the line shows bytes.
    pub(crate) has_bytes: bool,
    pub(crate) source: &'a [u8],
}

impl Layout {
    /// The layout of the first line that shows bytes in any of them.
    pub(crate) fn of(listing: &[u8]) -> Option<Layout> {
        for line in listing.split(|byte| *byte == b'\n') {
            if let Some(layout) = layout_of_line(line) {
                return Some(layout);
            }
        }
        None
    }

    /// What a line shows in this layout; None for a heading, and for more bytes of the line before.
    pub(crate) fn shown(self, line: &[u8]) -> Option<Shown<'_>> {
        let line = line.strip_suffix(b"\r").unwrap_or(line);
        match self {
            Layout::Z80asm => z80asm_line(line),
            Layout::Sjasmplus => sjasmplus_line(line),
            Layout::Gas => gas_line(line),
            Layout::Crasm => crasm_line(line),
            Layout::Sdcc => sdcc_line(line),
        }
    }

    /// The address of bytes whose source a later line shows: crasm shows the source of more than seven bytes beside the
    /// last of them.
    pub(crate) fn begun(self, line: &[u8]) -> Option<u16> {
        match self {
            Layout::Crasm => {
                let (address, _) = word_first(line)?;
                (line.trim_ascii_end().len() == 19 && has_byte_at(line, 5)).then_some(address)
            }
            Layout::Z80asm | Layout::Sjasmplus | Layout::Gas | Layout::Sdcc => None,
        }
    }

    /// Whether a line shows that it is not assembled: by `~` in the place of bytes, or by a label without an address.
    pub(crate) fn marks_as_left_out(self, line: &[u8], has_label: bool) -> bool {
        match self {
            Layout::Sjasmplus => line.get(11) == Some(&b'~'),
            Layout::Sdcc => has_label && line.starts_with(SDCC_WITHOUT_ADDRESS),
            Layout::Z80asm | Layout::Gas | Layout::Crasm => false,
        }
    }

    /// Whether a word that begins in the first column is a label, also without a colon.
    pub(crate) fn has_labels_by_column(self) -> bool {
        match self {
            Layout::Sjasmplus | Layout::Crasm => true,
            Layout::Z80asm | Layout::Gas | Layout::Sdcc => false,
        }
    }
}

/// The layout in which a line shows bytes.
fn layout_of_line(line: &[u8]) -> Option<Layout> {
    for layout in LAYOUTS {
        if let Some(shown) = layout.shown(line)
            && shown.has_bytes
        {
            return Some(layout);
        }
    }
    None
}

/// `0003 c3 6a 00`, tabs up to column 24 or one tab, and the source. A text's bytes are shown as `..`, also before
/// further bytes, and equal bytes as `00...`.
fn z80asm_line(line: &[u8]) -> Option<Shown<'_>> {
    let (address, behind) = word_first(line)?;
    let tab = behind.iter().position(|byte| *byte == b'\t')?;
    let bytes = behind.get(..tab)?;
    if !are_z80asm_bytes(bytes) {
        return None;
    }
    let mut source = behind.get(tab..)?;
    // The columns before the source: 4 of the address, and those of the bytes.
    for _ in 0..3usize.saturating_sub((4 + tab.min(20)) / 8).max(1) {
        source = source.strip_prefix(b"\t").unwrap_or(source);
    }
    Some(Shown {
        address: Some(address),
        has_bytes: !bytes.is_empty(),
        source,
    })
}

fn are_z80asm_bytes(bytes: &[u8]) -> bool {
    let pairs = bytes.strip_suffix(b"...").unwrap_or(bytes);
    pairs.chunks(3).all(|pair| {
        matches!(pair, [b' ', b'.', b'.'])
            || (pair.len() == 3 && pair.starts_with(b" ") && has_byte_at(pair, 1))
    })
}

/// `  4+   0003 C3 6A 00 `: a number with a sign for each file that includes it, the address from column 6, the bytes
/// from column 11, and the source from column 24. A line that is not assembled has `~` in place of bytes.
fn sjasmplus_line(line: &[u8]) -> Option<Shown<'_>> {
    let number = line.get(..6)?.trim_ascii();
    let is_number = number.first()?.is_ascii_digit()
        && number
            .iter()
            .all(|byte| byte.is_ascii_digit() || *byte == b'+');
    let (address, behind) = word_first(line.get(6..)?)?;
    if !is_number || !behind.first().is_none_or(|byte| *byte == b' ') {
        return None;
    }
    Some(Shown {
        address: Some(address),
        has_bytes: has_byte_at(line, 11),
        source: line.get(24..).unwrap_or(b""),
    })
}

/// `   4 0003 C3 6A 00    `, a tab, and the source. The number ends in column 4, or is longer.
fn gas_line(line: &[u8]) -> Option<Shown<'_>> {
    let blanks = line.iter().take_while(|byte| **byte == b' ').count();
    let digits = line
        .get(blanks..)?
        .iter()
        .take_while(|byte| byte.is_ascii_digit())
        .count();
    let ends = blanks.checked_add(digits)?;
    if digits == 0 || ends < 4 || (ends > 4 && blanks > 0) {
        return None;
    }
    let behind = line.get(ends..)?;
    let tab = behind.iter().position(|byte| *byte == b'\t')?;
    let bytes = behind.get(..tab)?;
    let source = behind.get(tab..)?.strip_prefix(b"\t")?;
    if bytes.trim_ascii().is_empty() {
        return Some(Shown {
            address: None,
            has_bytes: false,
            source,
        });
    }
    let (address, _) = word_first(bytes.strip_prefix(b" ")?)?;
    has_byte_at(bytes, 6).then_some(Shown {
        address: Some(address),
        has_bytes: true,
        source,
    })
}

/// `0003 C36A00              4  `: up to seven bytes, a number that ends in column 26, and the source from column 28.
fn crasm_line(line: &[u8]) -> Option<Shown<'_>> {
    if !is_number(line.get(19..26)?) {
        return None;
    }
    let source = line.get(28..).unwrap_or(b"");
    if line.starts_with(b" ") {
        return Some(Shown {
            address: None,
            has_bytes: false,
            source,
        });
    }
    let (address, _) = word_first(line)?;
    has_byte_at(line, 5).then_some(Shown {
        address: Some(address),
        has_bytes: true,
        source,
    })
}

/// `      000003 C3 80 00         [10]    7 `: the address from column 6, the bytes from column 13, the T-states, a
/// number that ends in column 39, and the source from column 40.
fn sdcc_line(line: &[u8]) -> Option<Shown<'_>> {
    if !is_number(line.get(34..39)?) {
        return None;
    }
    let source = line.get(40..).unwrap_or(b"");
    let left = line.get(..34)?;
    // A value that stands in the place of bytes is that of an equate or of a condition.
    if left.starts_with(SDCC_WITHOUT_ADDRESS) {
        return Some(Shown {
            address: None,
            has_bytes: false,
            source,
        });
    }
    let (address, _) = word_first(left.strip_prefix(b"      00")?)?;
    Some(Shown {
        address: Some(address),
        has_bytes: has_byte_at(left, 13),
        source,
    })
}

/// Whether a text is a decimal number, perhaps after blanks.
fn is_number(text: &[u8]) -> bool {
    let digits = text.trim_ascii_start();
    !digits.is_empty() && digits.iter().all(|byte| byte.is_ascii_digit())
}

/// Whether a text has two hexadecimal digits at an index.
fn has_byte_at(text: &[u8], index: usize) -> bool {
    let Some(rest) = text.get(index..) else {
        return false;
    };
    match rest {
        [high, low, ..] => high.is_ascii_hexdigit() && low.is_ascii_hexdigit(),
        _ => false,
    }
}

/// The number of the four hexadecimal digits with which a text begins, and what follows them.
pub(crate) fn word_first(text: &[u8]) -> Option<(u16, &[u8])> {
    let digits = text.get(..4)?;
    let rest = text.get(4..)?;
    if !digits.iter().all(|byte| byte.is_ascii_hexdigit()) {
        return None;
    }
    let number = u16::from_str_radix(str::from_utf8(digits).ok()?, 16).ok()?;
    Some((number, rest))
}
