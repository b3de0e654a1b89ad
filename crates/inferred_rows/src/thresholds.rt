// The numbers at which a bound that grows stops for a while.

use crate::operands::constants_of;
use address_map::{Map, Region};
use analysis::FlowFault;
use std::alloc::Global;
use std::collections::BTreeSet;
use z80_decode::Instr;

/// The numbers at which a bound that grows stops for a while: the edges of the map's zones and of the stack region, and
/// the constants of instructions, with their neighbours below.
#[derive(Drop)]
pub struct Thresholds {
    words: BTreeSet<u16>,
    bytes: BTreeSet<u16>,
}

impl Thresholds {
    /// The edges of the zones of a map and of a stack region.
    ///
    /// # Errors
    ///
    /// `NoMemory` where memory was refused.
    pub fn of(alloc: Global, map: &Map, region: Region) -> Result<Thresholds, FlowFault> {
        let mut thresholds = Thresholds {
            words: BTreeSet::new(alloc),
            bytes: BTreeSet::new(alloc),
        };
        for zone in map.zones() {
            thresholds.add_word(zone.first)?;
            thresholds.add_word(zone.last)?;
        }
        thresholds.add_word(region.low)?;
        thresholds.add_word(region.top)?;
        Ok(thresholds)
    }

    /// Adds the constants of an instruction.
    ///
    /// # Errors
    ///
    /// `NoMemory` where memory was refused.
    pub fn add(&mut self, instr: &Instr) -> Result<(), FlowFault> {
        let (word, byte) = constants_of(instr);
        if let Some(word) = word {
            self.add_word(word)?;
        }
        if let Some(byte) = byte {
            self.bytes.insert(u16::from(byte))?;
            self.bytes.insert(u16::from(byte.saturating_sub(1)))?;
        }
        Ok(())
    }

    fn add_word(&mut self, word: u16) -> Result<(), FlowFault> {
        self.words.insert(word)?;
        self.words.insert(word.saturating_sub(1))?;
        Ok(())
    }

    /// The least threshold that is not below a word; the greatest word if there is none.
    pub fn word_above(&self, word: u16) -> u16 {
        match self.words.range(word..=u16::MAX).next() {
            Some(threshold) => *threshold,
            None => u16::MAX,
        }
    }

    /// The greatest threshold from 1 on that is not above a word; 1 if there is none, and 0 for the word 0. So a
    /// counter that is never 0 keeps that, and where it is lowered it does not seem to wrap.
    pub fn word_below(&self, word: u16) -> u16 {
        if word == 0 {
            return 0;
        }
        match self.words.range(1..=word).next_back() {
            Some(threshold) => *threshold,
            None => 1,
        }
    }

    /// The least threshold that is not below a byte; the greatest byte if there is none.
    pub fn byte_above(&self, byte: u8) -> u8 {
        match self.bytes.range(u16::from(byte)..=255).next() {
            Some(threshold) => (*threshold).min(255) as u8,
            None => u8::MAX,
        }
    }

    /// The greatest threshold from 1 on that is not above a byte; 1 if there is none, and 0 for the byte 0.
    pub fn byte_below(&self, byte: u8) -> u8 {
        if byte == 0 {
            return 0;
        }
        match self.bytes.range(1..=u16::from(byte)).next_back() {
            Some(threshold) => (*threshold).min(255) as u8,
            None => 1,
        }
    }
}
