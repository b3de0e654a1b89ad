// Numbers in texts: reading a field and spelling a number.

ghost use Rattle.std.specs.Prelude.{◌≡◌, ◌<◌, ◌≤◌, ◌^◌, ◌↔◌, IsTrue};
ghost use Rattle.std.specs.Fmt.{decimal};
ghost use Rattle.texts.specs.Numbers.{BeginsDecimal, Reads, Always, IsByte, IsWord, hex_digit, hex2, hex4, flag_digit};

/// Whether the field may begin a decimal: it is not empty, has no sign, and no leading zero.
fn begins_decimal(field: &[u8]) -> bool
    ensures { IsTrue result ↔ BeginsDecimal field.now }
{
    match field {
        [] | [b'+', ..] => false,
        [b'0', ..] => field.len() == 1,
        _ => true,
    }
}

/// A decimal from 0 to 4,294,967,295 without leading zeros; None for any other field.
fn decimal_number(field: &[u8]) -> Option<u32>
    ensures { Reads decimal (λ n. n < 2 ^ 32) field.now result }
{
    if !begins_decimal(field) {
        return None;
    }
    let Ok(text) = str::from_utf8(field) else {
        return None;
    };
    text.parse::<u32>().ok()
}

/// A decimal from `least` to `most` without leading zeros; None for any other field.
pub fn decimal_between(field: &[u8], least: u32, most: u32) -> Option<u32>
    ensures { Reads decimal (λ n. (least ≤ n) × (n ≤ most)) field.now result }
{
    let number = decimal_number(field)?;
    if least <= number && number <= most {
        Some(number)
    } else {
        None
    }
}

/// A decimal from 0 to 65,535 without leading zeros; None for any other field.
pub fn decimal_field(field: &[u8]) -> Option<u16>
    ensures { Reads decimal IsWord field.now result }
{
    let number = decimal_between(field, 0, u32::from(u16::MAX))?;
    Some(number as u16)
}

/// The value of an upper-case hexadecimal digit.
fn hex_digit_value(byte: u8) -> Option<u16>
    ensures { Reads hex_digit (λ d. d < 16) byte result }
{
    match byte {
        b'0'..=b'9' => Some(u16::from(byte - b'0')),
        b'A'..=b'F' => Some(u16::from(byte - b'A') + 10),
        _ => None,
    }
}

/// A word as four upper-case hexadecimal digits; None for any other field.
#[tactic(auto, unfolding(crate::specs::Numbers::hex4))]
pub fn hex4_field(field: &[u8]) -> Option<u16>
    ensures { Reads hex4 IsWord field.now result }
{
    let [a, b, c, d] = field else {
        return None;
    };
    let a = hex_digit_value(*a)?;
    let b = hex_digit_value(*b)?;
    let c = hex_digit_value(*c)?;
    let d = hex_digit_value(*d)?;
    Some(a * 0x1000 + b * 0x100 + c * 0x10 + d)
}

/// A byte as two upper-case hexadecimal digits; None for any other field.
#[tactic(auto, unfolding(crate::specs::Numbers::hex2))]
pub fn hex2_field(field: &[u8]) -> Option<u8>
    ensures { Reads hex2 IsByte field.now result }
{
    let [high, low] = field else {
        return None;
    };
    let high = hex_digit_value(*high)?;
    let low = hex_digit_value(*low)?;
    Some((high * 0x10 + low) as u8)
}

/// A flag, `0` or `1`; None for any other field.
pub fn flag_field(field: &[u8]) -> Option<bool>
    ensures { Reads flag_digit Always field.now result }
{
    match field {
        [b'0'] => Some(false),
        [b'1'] => Some(true),
        _ => None,
    }
}

/// An upper-case hexadecimal digit.
fn hex_digit_of(value: u16) -> u8
    requires { value < 16 }
    ensures { result ≡ hex_digit value }
{
    if value < 10 {
        b'0' + value as u8
    } else {
        b'A' + (value as u8 - 10)
    }
}

/// A byte as two upper-case hexadecimal digits.
#[tactic(auto, unfolding(crate::specs::Numbers::hex2))]
pub fn spell_hex2(byte: u8) -> [u8; 2]
    ensures { result ≡ hex2 byte }
{
    let byte = u16::from(byte);
    [hex_digit_of(byte / 0x10), hex_digit_of(byte % 0x10)]
}

/// A word as four upper-case hexadecimal digits.
#[tactic(auto, unfolding(crate::specs::Numbers::hex4))]
pub fn spell_hex4(word: u16) -> [u8; 4]
    ensures { result ≡ hex4 word }
{
    [
        hex_digit_of(word / 0x1000),
        hex_digit_of(word / 0x100 % 0x10),
        hex_digit_of(word / 0x10 % 0x10),
        hex_digit_of(word % 0x10),
    ]
}
