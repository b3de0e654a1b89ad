// Words that cannot be read.

use crate::ending::end;
use command_parts::ExitStatus;
use command_streams::report;
use command_words::WordFault;
use texts::Sink;

/// Reports the word that is no text or is too long, by its number after the program's name. The result is the exit
/// status.
pub fn report_words<N: Sink>(notes: &mut N, fault: &WordFault) -> u8 {
    match fault {
        WordFault::NotText(number, bytes) => {
            let bytes = bytes.as_slice().escape_ascii();
            report(notes, format_args!("word {number} is not UTF-8: {bytes}"));
            ExitStatus::Usage.code()
        }
        WordFault::TooLong(number) => {
            report(notes, format_args!("word {number} is too long"));
            ExitStatus::Usage.code()
        }
        WordFault::NoMemory => end(notes, ExitStatus::OutOfMemory.code(), &[]),
    }
}
