// Calls of `successors` for all documented codes, with random states.

use crate::numbers::Numbers;
use abs_state::{AbsState, FlagFact, KeptCell, Mode};
use abs_step::successors;
use address_map::{Map, Rom};
use arrayvec::ArrayVec;
use intervals::{ByteRange, Pair, RegPair, WordRange};
use std::alloc::{AllocError, Global};
use z80_decode::{Register8, decode};

impl Numbers {
    /// A range of at most 256 words from `low` on.
    fn words_from(&mut self, low: u16) -> WordRange {
        let high = low.saturating_add(u16::from(self.byte()));
        WordRange::new(low, high).unwrap_or(WordRange::full())
    }

    /// A random pair: a full range, one word of the ROM, at most 256 words from one of the ROM, or at most 256 words
    /// from any. One pair in four has an origin.
    fn pair(&mut self) -> Pair {
        let word = self.word();
        let of_word = match self.byte() % 4 {
            0 => WordRange::full(),
            1 => WordRange::single(word % ROM),
            2 => self.words_from(word % ROM),
            _ => self.words_from(word),
        };
        let origin = match self.byte() % 4 {
            0 => Some(RegPair::Bc),
            _ => None,
        };
        Pair {
            origin,
            ..Pair::of_word(of_word)
        }
    }

    fn fact(&mut self) -> Option<FlagFact> {
        match self.byte() % 4 {
            0 => Some(FlagFact::Zero(Register8::A)),
            1 => Some(FlagFact::Zero(Register8::B)),
            2 => Some(FlagFact::Compared(self.byte())),
            _ => None,
        }
    }

    /// A random state in mode `s` or `n`, with up to four armed cells and up to seven slots.
    fn state(&mut self) -> AbsState {
        let mut state = AbsState::of_main();
        state.mode = if self.byte() < 128 {
            Mode::Set
        } else {
            Mode::Nmi
        };
        state.armed = u16::from(self.byte() % 5);
        for register in PAIRS {
            state.pairs.set(register, self.pair());
        }
        state.flag = self.fact();
        for _ in 0..self.byte() % 8 {
            let pair = self.pair();
            let _fits = state.push(pair);
        }
        state
    }
}

const PAIRS: [RegPair; 10] = [
    RegPair::Af,
    RegPair::Bc,
    RegPair::De,
    RegPair::Hl,
    RegPair::Ix,
    RegPair::Iy,
    RegPair::AlternateAf,
    RegPair::AlternateBc,
    RegPair::AlternateDe,
    RegPair::AlternateHl,
];

/// The number of bytes in the ROM.
const ROM: u16 = 0x4000;

/// The number of states.
const STATES: usize = 61;

/// Each prefix of an opcode, with the number of displacement bytes between the prefix and the opcode. Only DD CB and FD
/// CB have one.
const PREFIXES: [(u8, &[u8]); 7] = [
    (0, &[]),
    (0, &[0xCB]),
    (0, &[0xED]),
    (0, &[0xDD]),
    (0, &[0xFD]),
    (1, &[0xDD, 0xCB]),
    (1, &[0xFD, 0xCB]),
];

/// A ROM with each documented code once, filled up with random bytes.
#[derive(Drop)]
struct Codes {
    rom: Vec<u8>,
    /// The addresses of the codes.
    starts: Vec<u16>,
}

impl Codes {
    fn of(alloc: Global, numbers: &mut Numbers) -> Result<Codes, AllocError> {
        let mut codes = Codes {
            rom: Vec::new(alloc),
            starts: Vec::new(alloc),
        };
        for (displacements, prefix) in PREFIXES {
            for opcode in 0..=255 {
                codes.add(numbers, prefix, displacements, opcode)?;
            }
        }
        for _ in codes.rom.len()..usize::from(ROM) {
            codes.rom.push(numbers.byte())?;
        }
        Ok(codes)
    }

    /// Adds the instruction with this prefix, this many displacement bytes, this opcode and random operands. Adds
    /// nothing if they do not decode.
    fn add(
        &mut self,
        numbers: &mut Numbers,
        prefix: &[u8],
        displacements: u8,
        opcode: u8,
    ) -> Result<(), AllocError> {
        let mut bytes: ArrayVec<u8, 8> = ArrayVec::new();
        let _fits = bytes.try_extend_from_slice(prefix);
        for _ in 0..displacements {
            let _fits = bytes.try_push(numbers.byte());
        }
        let _fits = bytes.try_push(opcode);
        for _ in 0..2 {
            let _fits = bytes.try_push(numbers.byte());
        }
        let at = u16::try_from(self.rom.len());
        if let (Ok(at), Ok((_, len))) = (at, decode(bytes.as_slice())) {
            self.rom
                .extend_from_slice(&bytes.as_slice()[..usize::from(len)])?;
            self.starts.push(at)?;
        }
        Ok(())
    }
}

/// The number of successors in this many calls, and the number of calls that refused the row. The calls cycle through
/// the codes and the states.
pub fn counted(alloc: Global, calls: u64) -> Result<(u64, u64), AllocError> {
    let mut numbers = Numbers::from_seed(1);
    let codes = Codes::of(alloc, &mut numbers)?;
    let mut states = Vec::new(alloc);
    for _ in 0..STATES {
        states.push(numbers.state())?;
    }
    Ok(called(alloc, &codes, states.as_slice(), calls))
}

/// The kept cells are the first four of work RAM. Each keeps a byte below 16.
fn kept() -> [KeptCell; 4] {
    let range = ByteRange::at_most(15);
    [0x4000, 0x4001, 0x4002, 0x4003].map(|at| KeptCell { at, range })
}

fn called(alloc: Global, codes: &Codes, states: &[AbsState], calls: u64) -> (u64, u64) {
    let Some(rom) = Rom::of(codes.rom.as_slice()) else {
        return (0, 0);
    };
    let map = Map::galaxian(rom.len());
    let cells = kept();
    let (mut ways, mut refused): (u64, u64) = (0, 0);
    let (mut code, mut state) = (0, 0);
    for _ in 0..calls {
        let (Some(at), Some(known)) = (codes.starts.get(code), states.get(state)) else {
            return (ways, refused);
        };
        match successors(alloc, &rom, &map, &cells, *at, false, false, known) {
            Ok(nexts) => ways = ways.wrapping_add(nexts.len() as u64),
            Err(_) => refused = refused.wrapping_add(1),
        }
        code = following(code, codes.starts.len());
        state = following(state, states.len());
    }
    (ways, refused)
}

/// The index after `place` in a list of length `len`. The last index wraps to the first.
fn following(place: usize, len: usize) -> usize {
    let next = place.wrapping_add(1);
    if next < len { next } else { 0 }
}
