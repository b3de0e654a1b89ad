// The numbers that options say.

use crate::reported::report;
use clap::ArgMatches;
use command_words::TRIALS;
use texts::Sink;

/// The most trials of a search where none is said.
const TRIALS_UNSAID: u32 = 2_000;

/// The most trials that a search may take. If the word is out of form, it is reported.
pub fn trials_of<N: Sink>(notes: &mut N, matches: &ArgMatches) -> Option<u32> {
    number_of(notes, matches.get_str(TRIALS), TRIALS, TRIALS_UNSAID)
}

/// The number that the word of an option says, or `unsaid` where there is no word. If the word is out of form, it is
/// reported.
pub fn number_of<N: Sink>(
    notes: &mut N,
    word: Option<&str>,
    option: &str,
    unsaid: u32,
) -> Option<u32> {
    let Some(text) = word else {
        return Some(unsaid);
    };
    let is_decimal = text.bytes().all(|byte| byte.is_ascii_digit());
    match text.parse() {
        Ok(number) if is_decimal => Some(number),
        _ => {
            report(notes, format_args!("bad {option}"));
            let text = text.escape_debug();
            report(
                notes,
                format_args!("galcert: N is \"{text}\", and not a decimal of at most 4294967295"),
            );
            None
        }
    }
}
