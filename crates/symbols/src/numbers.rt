// Numbers as assemblers write them.

/// A number: hexadecimal with a mark, as `$6C`, `#6C`, `0x6C` or `6Ch`, or decimal without leading zeros. None for any
/// other text and above FFFFFFFF.
pub fn number(text: &str) -> Option<u32> {
    match marked(text) {
        Some(number) => Some(number),
        None => decimal(text),
    }
}

/// A number in hexadecimal with a mark: `$6C`, `#6C`, `0x6C` or `6Ch`. The last begins with a digit. None for any other
/// text and above FFFFFFFF.
pub(crate) fn marked(text: &str) -> Option<u32> {
    for mark in ["$", "#", "0x", "0X"] {
        if let Some(digits) = text.strip_prefix(mark) {
            return hexadecimal(digits);
        }
    }
    let digits = text.strip_suffix(['h', 'H'])?;
    if digits.starts_with(|sign: char| sign.is_ascii_digit()) {
        hexadecimal(digits)
    } else {
        None
    }
}

/// Hexadecimal digits of either case. None for any other text and above FFFFFFFF.
pub(crate) fn hexadecimal(digits: &str) -> Option<u32> {
    // Parsing would take a plus sign too.
    if digits.starts_with('+') {
        return None;
    }
    u32::from_str_radix(digits, 16).ok()
}

/// Decimal digits without leading zeros. None for any other text and above 4,294,967,295.
fn decimal(digits: &str) -> Option<u32> {
    if digits.starts_with('+') || digits.len() > 1 && digits.starts_with('0') {
        return None;
    }
    digits.parse::<u32>().ok()
}
