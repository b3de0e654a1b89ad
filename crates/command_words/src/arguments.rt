// The words of the command line as texts.

use std::alloc::{AllocError, Global};
use std::env::{Env, FillError};

/// The longest word that Linux gives a program, in bytes, with its final zero (execve(2), MAX_ARG_STRLEN).
const WORD_LEN: usize = 131_072;

/// Why the words cannot be read.
#[derive(Drop)]
pub enum WordFault {
    /// The word with this number has these bytes, which are not UTF-8. The program's name is word 0.
    NotText(usize, Vec<u8>),
    /// The word with this number is longer than Linux allows.
    TooLong(usize),
    /// Memory was refused for the words.
    NoMemory,
}

impl From<AllocError> for WordFault {
    fn from(_error: AllocError) -> WordFault {
        WordFault::NoMemory
    }
}

/// The name `galcert` and the words after the program's name.
///
/// # Errors
///
/// `NotText` for the first word that is not UTF-8, `TooLong` for one longer than Linux allows, and `NoMemory` where
/// memory was refused.
pub fn words(env: &impl Env, alloc: Global) -> Result<Vec<String>, WordFault> {
    let mut words = Vec::new(alloc);
    keep(&mut words, String::from_str(alloc, "galcert")?)?;
    let mut buffer = [0; WORD_LEN];
    for number in 1..usize::MAX {
        match env.arg(number, &mut buffer) {
            Ok(count) => keep(&mut words, text(alloc, number, &buffer[..count])?)?,
            Err(FillError::NotPresent) => break,
            Err(FillError::TooLong) => return Err(WordFault::TooLong(number)),
        }
    }
    Ok(words)
}

fn keep(words: &mut Vec<String>, word: String) -> Result<(), WordFault> {
    match words.push(word) {
        Ok(()) => Ok(()),
        Err(_) => Err(WordFault::NoMemory),
    }
}

/// A word as a text.
fn text(alloc: Global, number: usize, bytes: &[u8]) -> Result<String, WordFault> {
    match str::from_utf8(bytes) {
        Ok(text) => Ok(String::from_str(alloc, text)?),
        Err(_) => {
            let mut word = Vec::new(alloc);
            word.extend_from_slice(bytes)?;
            Err(WordFault::NotText(number, word))
        }
    }
}
