// A line of source: its label, its operation and its comment.

use crate::layout::Layout;

/// The parts of a line of source.
#[derive(Clone, Copy)]
pub struct SourceText<'a> {
    pub label: Option<&'a [u8]>,
    /// The instruction or the directive, without blanks around it; empty if there is none.
    pub operation: &'a [u8],
    /// What follows the first semicolon.
    pub comment: &'a [u8],
}

/// The words that give a label a value instead of an address.
const EQUATES: [&[u8]; 7] = [
    b"equ", b".equ", b"=", b"==", b"defl", b".gblequ", b".lclequ",
];

/// The directives of GNU as that give a name a value: the name and a comma stand before it.
const NAME_FIRST: [&[u8]; 3] = [b".equ", b".set", b".equiv"];

/// The instructions of the Z80 and the directives for data. SET is not among them: some assemblers have an equate of
/// that name.
const WITH_BYTES: [&[u8]; 76] = [
    b"adc", b"add", b"and", b"bit", b"call", b"ccf", b"cp", b"cpd", b"cpdr", b"cpi", b"cpir",
    b"cpl", b"daa", b"dec", b"di", b"djnz", b"ei", b"ex", b"exx", b"halt", b"im", b"in", b"inc",
    b"ind", b"indr", b"ini", b"inir", b"jp", b"jr", b"ld", b"ldd", b"lddr", b"ldi", b"ldir",
    b"neg", b"nop", b"or", b"otdr", b"otir", b"out", b"outd", b"outi", b"pop", b"push", b"res",
    b"ret", b"reti", b"retn", b"rl", b"rla", b"rlc", b"rlca", b"rld", b"rr", b"rra", b"rrc",
    b"rrca", b"rrd", b"rst", b"sbc", b"scf", b"sla", b"sra", b"srl", b"sub", b"xor", b"db",
    b"defb", b"dw", b"defw", b"dm", b"defm", b".db", b".dw", b".byte", b".word",
];

/// The directives of SDCC's assembler that reserve bytes, which its listing does not show.
const RESERVES: [&[u8]; 7] = [
    b".ds", b".rs", b".rmb", b".blkb", b".blkw", b".blk3", b".blk4",
];

impl<'a> SourceText<'a> {
    /// The parts of a line, as the assembler of a layout reads them.
    pub(crate) fn of(layout: Layout, source: &'a [u8]) -> SourceText<'a> {
        let (code, comment) = split_comment(source);
        let text = code.trim_ascii();
        let (word, behind) = split_word(text);
        if let Some(operation) = behind.strip_prefix(b":") {
            let operation = operation.strip_prefix(b":").unwrap_or(operation);
            return SourceText {
                label: Some(word),
                operation: operation.trim_ascii(),
                comment,
            };
        }
        if layout.has_labels_by_column() && !word.is_empty() && code.starts_with(word) {
            return SourceText {
                label: Some(word),
                operation: behind.trim_ascii(),
                comment,
            };
        }
        SourceText {
            label: None,
            operation: text,
            comment,
        }
    }

    /// The word with which the operation begins.
    pub fn mnemonic(&self) -> &'a [u8] {
        split_word(self.operation).0
    }

    /// Whether the operation reserves bytes that the listing does not show.
    pub(crate) fn reserves_bytes(&self) -> bool {
        is_one_of(self.mnemonic(), &RESERVES)
    }

    /// Whether the operation is an instruction or data, which has bytes wherever it is assembled.
    pub(crate) fn makes_bytes(&self) -> bool {
        is_one_of(self.mnemonic(), &WITH_BYTES)
    }

    /// Whether the line has a label that is the name of an address, and not that of an equate.
    pub(crate) fn names_address(&self) -> bool {
        self.label.is_some() && self.equate().is_none()
    }

    /// The name of the macro that the operation defines: the label, or what follows the word `macro`.
    pub(crate) fn defined_macro(&self) -> Option<&'a [u8]> {
        let (word, rest) = split_word(self.operation);
        let word = word.strip_prefix(b".").unwrap_or(word);
        if !word.eq_ignore_ascii_case(b"macro") {
            return None;
        }
        let (first, _) = split_word(rest.trim_ascii());
        let name = first.split(|byte| *byte == b',').next().unwrap_or(first);
        Some(self.label.unwrap_or(name))
    }

    /// The name of the file that the operation includes, between double quotes.
    pub(crate) fn included(&self) -> Option<&'a [u8]> {
        let (word, rest) = split_word(self.operation);
        if !word.eq_ignore_ascii_case(b"include") {
            return None;
        }
        rest.trim_ascii().strip_prefix(b"\"")?.strip_suffix(b"\"")
    }

    /// The name that an equate gives a value, and the text of the value.
    pub fn equate(&self) -> Option<(&'a [u8], &'a [u8])> {
        let (word, rest) = split_word(self.operation);
        if let Some(label) = self.label {
            return is_one_of(word, &EQUATES).then_some((label, rest.trim_ascii()));
        }
        let (sign, value) = split_word(rest.trim_ascii_start());
        if is_one_of(sign, &EQUATES) {
            return Some((word, value.trim_ascii()));
        }
        let comma = rest.iter().position(|byte| *byte == b',')?;
        let (name, value) = rest.split_at(comma);
        let value = value.strip_prefix(b",")?;
        is_one_of(word, &NAME_FIRST).then_some((name.trim_ascii(), value.trim_ascii()))
    }
}

/// Whether a word is one of these, in upper or lower case.
fn is_one_of(word: &[u8], words: &[&[u8]]) -> bool {
    words.iter().any(|other| word.eq_ignore_ascii_case(other))
}

/// The first word of a text and what follows it. A word ends at a blank, at a colon, and before `=`; one or more `=`
/// are a word of their own.
fn split_word(text: &[u8]) -> (&[u8], &[u8]) {
    let is_sign = text.starts_with(b"=");
    let end = text
        .iter()
        .position(|byte| byte.is_ascii_whitespace() || *byte == b':' || (*byte == b'=') != is_sign)
        .unwrap_or(text.len());
    text.split_at(end)
}

/// What stands before the first semicolon, and what follows it. A semicolon in a text does not count: between double
/// quotes, or between two single quotes.
fn split_comment(source: &[u8]) -> (&[u8], &[u8]) {
    let mut quote = None;
    for (at, byte) in source.iter().enumerate() {
        match quote {
            Some(sign) => {
                if *byte == sign {
                    quote = None;
                }
            }
            None => match *byte {
                b'"' => quote = Some(b'"'),
                b'\'' if begins_text(source, at) => quote = Some(b'\''),
                b';' => {
                    let (code, comment) = source.split_at(at);
                    return (code, comment.strip_prefix(b";").unwrap_or(comment));
                }
                _ => {}
            },
        }
    }
    (source, b"")
}

/// Whether a single quote at an index begins a text: it is one character, or another quote follows. It then belongs
/// neither to a name, as in `AF'`, nor to a character of SDCC's assembler, as in `#'a`.
fn begins_text(source: &[u8], at: usize) -> bool {
    let place = |distance: usize| at.checked_add(distance);
    let is_character = place(2).and_then(|index| source.get(index)) == Some(&b'\'');
    let is_alone = match at.checked_sub(1).and_then(|index| source.get(index)) {
        Some(before) => before.is_ascii_alphanumeric() || *before == b'#',
        None => false,
    };
    let behind = place(1).and_then(|index| source.get(index..));
    is_character || (!is_alone && behind.unwrap_or(b"").contains(&b'\''))
}
