// Limits for the totals of a table (docs/PROGRAM.md, "Limits").

use crate::numbers::number_of;
use crate::reported::report;
use clap::ArgMatches;
use command_parts::ExitStatus;
use command_streams::Watched;
use command_words::{MAX_NMI, MAX_STACK};
use texts::Sink;

/// Limits for the totals of a table, for a program that is to keep some room.
#[derive(Clone, Copy)]
pub struct Limits {
    /// Bytes of stack.
    stack: u32,
    /// T-states of the NMI routine.
    nmi: u32,
}

impl Limits {
    /// The limits that are said. If a word is out of form, it is reported.
    pub fn of<N: Sink>(matches: &ArgMatches, notes: &mut N) -> Option<Limits> {
        Some(Limits {
            stack: number_of(notes, matches.get_str(MAX_STACK), MAX_STACK, u32::MAX)?,
            nmi: number_of(notes, matches.get_str(MAX_NMI), MAX_NMI, u32::MAX)?,
        })
    }

    /// The status after a table was written to `out`: 1 if a total is above its limit, and then `notes` is told which.
    /// Another status than 0 stays.
    pub fn judge<N: Sink, W: Sink>(self, notes: &mut N, status: u8, out: &Watched<W>) -> u8 {
        if status != ExitStatus::Done.code() {
            return status;
        }
        let (stack, nmi) = (out.stack().unwrap_or(0), out.nmi().unwrap_or(0));
        if stack > self.stack {
            let most = self.stack;
            report(
                notes,
                format_args!("galcert: the stack takes {stack} bytes, more than {most}"),
            );
        }
        if nmi > self.nmi {
            let most = self.nmi;
            report(
                notes,
                format_args!("galcert: the NMI routine takes {nmi} T-states, more than {most}"),
            );
        }
        if stack > self.stack || nmi > self.nmi {
            return ExitStatus::Refused.code();
        }
        status
    }
}
