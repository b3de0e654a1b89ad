// What is told on standard error of symbol files and listings.

use std::alloc::Global;
use std::fmt;
use symbols::SymbolFault;
use texts::{Sink, put};

/// How many lines that were passed over are told each.
const TOLD: usize = 3;

/// Tells a line. What cannot be written, or made in memory, is left out.
pub(crate) fn tell_note<N: Sink, D: fmt::Display + Drop>(alloc: Global, notes: &mut N, said: D) {
    if let Ok(line) = format!(in alloc; "{said}\n") {
        let _told = put(notes, line.as_bytes());
    }
}

/// Tells why a symbol file is refused.
pub(crate) fn tell_symbols<N: Sink>(alloc: Global, notes: &mut N, name: &str, fault: &SymbolFault) {
    match fault {
        SymbolFault::TwoValues { second, .. } => {
            tell_note(alloc, notes, format_args!("{name}:{second}: {fault}"));
        }
        SymbolFault::TooLarge | SymbolFault::NoMemory => {
            tell_note(alloc, notes, format_args!("{name}: {fault}"));
        }
    }
}

/// Tells of lines that were passed over: of the first three each, and of the others how many they are.
pub fn tell_lines<N: Sink>(alloc: Global, notes: &mut N, name: &str, lines: &[u32], what: &str) {
    for line in lines.iter().take(TOLD) {
        tell_note(alloc, notes, format_args!("{name}:{line}: warning: {what}"));
    }
    let others = lines.len().saturating_sub(TOLD);
    if others > 0 {
        tell_note(
            alloc,
            notes,
            format_args!("{name}: warning: {what} in {others} more lines"),
        );
    }
}
