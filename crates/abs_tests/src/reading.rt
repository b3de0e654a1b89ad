// How the rows of the tests are read: columns, words, the bytes of a ROM, states, flag parts and linears.
//
// A state is written as words NAME:VALUE, and what no word names stays as it was. A register has a range of bytes, as
// A:05-20 or B:08; the other byte of its pair may be any. A pair has a range of words, as HL:4000-4010 or DE:0004, or
// what a certificate writes of a pair. The other names are mode, armed, fact and shape, with what a certificate writes,
// and slots, the number of words about which nothing is known that are pushed.
use abs_state::{AbsState, Mode};
use arrayvec::ArrayVec;
use cert_fields::{Counted, flag_fact_field, linear_field, mode_field, pair_field, shape_field};
use cert_flags::parts_field;
use flag_letters::FlagParts;
use intervals::{ByteRange, Pair, RegPair, WordRange};
use loop_bounds::{Linear, Part};
use stack_shape::SLOTS;
use texts::{decimal_field, hex2_field, hex4_field, split_once};

/// The columns of a row, without the spaces around them. Eight are enough: a ninth is left out.
pub fn columns_of(row: &str) -> ArrayVec<&str, 8> {
    let mut columns = ArrayVec::new();
    for column in row.split('|') {
        let _ = columns.try_push(column.trim());
    }
    columns
}

/// A range of bytes: `05-20`, or `05` for one byte.
pub fn byte_range(text: &[u8]) -> Option<ByteRange> {
    let (low, high) = split_once(text, b'-').unwrap_or((text, text));
    ByteRange::new(hex2_field(low)?, hex2_field(high)?)
}

/// A range of words: `4000-4010`, or `4000` for one word.
pub fn word_range(text: &[u8]) -> Option<WordRange> {
    let (low, high) = split_once(text, b'-').unwrap_or((text, text));
    WordRange::new(hex4_field(low)?, hex4_field(high)?)
}

/// The pair that a name names, or the pair and the byte of it.
fn place_of(name: &[u8]) -> Option<(RegPair, Part)> {
    Some(match name {
        [b'A'] => (RegPair::Af, Part::High),
        [b'B'] => (RegPair::Bc, Part::High),
        [b'C'] => (RegPair::Bc, Part::Low),
        [b'D'] => (RegPair::De, Part::High),
        [b'L'] => (RegPair::Hl, Part::Low),
        [b'A', b'F'] => (RegPair::Af, Part::Word),
        [b'B', b'C'] => (RegPair::Bc, Part::Word),
        [b'D', b'E'] => (RegPair::De, Part::Word),
        [b'H', b'L'] => (RegPair::Hl, Part::Word),
        [b'I', b'X'] => (RegPair::Ix, Part::Word),
        [b'I', b'Y'] => (RegPair::Iy, Part::Word),
        [b'H', b'L', b'\''] => (RegPair::AlternateHl, Part::Word),
        _ => return None,
    })
}

/// What a value says of a pair, or of one byte of it.
fn pair_of(part: Part, value: &[u8]) -> Option<Pair> {
    Some(match part {
        Part::Word => match word_range(value) {
            Some(word) => Pair::of_word(word),
            None => pair_field(value)?,
        },
        Part::High => Pair::of_bytes(byte_range(value)?, ByteRange::full()),
        Part::Low => Pair::of_bytes(ByteRange::full(), byte_range(value)?),
    })
}

/// Puts what a word NAME:VALUE says into a state. None if it can't be read.
pub fn put(state: &mut AbsState, word: &[u8]) -> Option<()> {
    let (name, value) = split_once(word, b':')?;
    match name {
        b"mode" => state.mode = mode_field(value)?,
        b"armed" => state.armed = decimal_field(value)?,
        b"fact" => state.flag = flag_fact_field(value)?,
        b"shape" => match shape_field(value)?.shape {
            Counted::Fits(shape) => state.shape = shape,
            Counted::TooMany => return None,
        },
        b"slots" => {
            for _ in 0..decimal_field(value)? {
                state.push(Pair::full()).ok()?;
            }
        }
        _ => {
            let (pair, part) = place_of(name)?;
            state.pairs.set(pair, pair_of(part, value)?);
        }
    }
    Some(())
}

/// The state with what these words say. None if one can't be read.
pub fn with(state: &AbsState, text: &str) -> Option<AbsState> {
    let mut state = state.copied();
    for word in text.split_whitespace() {
        put(&mut state, word.as_bytes())?;
    }
    Some(state)
}

/// A state of main code where SP is set, with what these words say. Nothing else is known of it.
pub fn state_of(text: &str) -> Option<AbsState> {
    let mut state = AbsState::of_main();
    state.mode = Mode::Set;
    with(&state, text)
}

/// At most four bytes.
pub fn code_of(text: &str) -> Option<ArrayVec<u8, 4>> {
    let mut code = ArrayVec::new();
    for word in text.split_whitespace() {
        code.try_push(hex2_field(word.as_bytes())?).ok()?;
    }
    Some(code)
}

/// Flag parts, as a certificate writes them.
pub fn parts_of(text: &[u8]) -> Option<FlagParts> {
    match parts_field(text, SLOTS) {
        Some(Counted::Fits(parts)) => Some(parts),
        _ => None,
    }
}

/// A linear, as a certificate writes it.
pub fn linear_of(text: &[u8]) -> Option<Linear> {
    match linear_field(text, SLOTS) {
        Some(Counted::Fits(linear)) => Some(linear),
        _ => None,
    }
}
