// What a command prints, and what standard error says.

use crate::devices::Out;
use clap::ArgMatches;
use command_reports::is_colored;
use command_streams::{ColoredLines, Printed};
use command_words::{COLOR, JSON};
use file_devices::WriterSink;
use std::io::{IsTerminal, Stderr};
use texts::Sink;

/// Standard error; in memory as long as a document is to say the same.
pub type Remarks = Printed<ColoredLines<WriterSink<Stderr>>>;

/// Standard output or a file; in memory where a document is made of it.
pub type Answer<'a> = Printed<Out<'a>>;

/// Standard error of a command.
pub fn notes_of(rt: &HostRuntime, matches: &ArgMatches) -> Remarks {
    let stderr = rt.stderr();
    let colored = is_colored(rt, matches.get_str(COLOR), stderr.is_terminal());
    let lines = ColoredLines::new(WriterSink::new(stderr), colored);
    if matches.get_flag(JSON) {
        return Printed::captured(rt.alloc(), lines);
    }
    Printed::at_once(lines)
}

/// Standard error without color.
pub fn plain_notes(rt: &HostRuntime) -> Remarks {
    Printed::at_once(ColoredLines::new(WriterSink::new(rt.stderr()), false))
}

/// What goes to a device, or is captured first, as for a document.
pub fn answer<W: Sink>(rt: &HostRuntime, is_captured: bool, device: W) -> Printed<W> {
    if is_captured {
        return Printed::captured(rt.alloc(), device);
    }
    Printed::at_once(device)
}
