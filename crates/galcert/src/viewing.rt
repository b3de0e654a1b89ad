// The commands that show an accepted program: `list`, `longest` and `report`.

use crate::devices::input;
use crate::naming::read;
use crate::running::hint_refused;
use crate::streams::{Remarks, answer};
use clap::ArgMatches;
use command_reports::{Reporter, UsedDevice, clash_of, end, is_closed_pipe, report_clash};
use command_streams::MeteredSink;
use command_words::{ENTRY, JSON, LISTING, ROWS, SYMBOLS, word};
use file_devices::WriterSink;
use json_documents::{Command, conclude};
use std::io;
use view_commands::{FileNames, list_on, longest_on, report_on};

/// A command that shows an accepted program.
#[derive(Clone, Copy)]
enum Shows {
    List,
    Longest,
    Report,
}

/// `galcert list`. The result is the exit status.
pub fn list_files<'a>(rt: &'a HostRuntime, matches: &ArgMatches<'a>, notes: &mut Remarks) -> u8 {
    view_files(rt, matches, Shows::List, notes)
}

/// `galcert longest`. The result is the exit status.
pub fn longest_files<'a>(rt: &'a HostRuntime, matches: &ArgMatches<'a>, notes: &mut Remarks) -> u8 {
    view_files(rt, matches, Shows::Longest, notes)
}

/// `galcert report`. The result is the exit status.
pub fn report_files<'a>(rt: &'a HostRuntime, matches: &ArgMatches<'a>, notes: &mut Remarks) -> u8 {
    view_files(rt, matches, Shows::Report, notes)
}

/// The last part of a path.
fn file_name(path: &str) -> &str {
    match path.rsplit_once('/') {
        Some((_, name)) => name,
        None => path,
    }
}

fn view_files<'a>(
    rt: &'a HostRuntime,
    matches: &ArgMatches<'a>,
    shows: Shows,
    notes: &mut Remarks,
) -> u8 {
    if let Some(clash) = clash_of(rt, matches, &["ROM", "CERT", SYMBOLS, LISTING], None) {
        return report_clash(notes, &clash);
    }
    let names = match read(rt, matches, notes) {
        Ok(names) => names,
        Err(status) => return status,
    };
    let symbols = &names.names.symbols;
    let mut rom = input(rt, matches, "ROM");
    let mut cert = input(rt, matches, "CERT");
    let printed = MeteredSink::new(
        WriterSink::new(io::writer(rt)),
        Reporter::passing(rt, rt.stderr(), "written"),
    );
    let mut out = answer(rt, matches.get_flag(JSON), printed);
    let alloc = rt.alloc();
    let status = match shows {
        Shows::List => list_on(alloc, &mut rom, &mut cert, symbols, &mut out),
        Shows::Report => {
            let files = FileNames {
                rom: file_name(word(matches, "ROM")),
                cert: file_name(word(matches, "CERT")),
                symbols: matches.get_str(SYMBOLS).map(file_name),
            };
            report_on(alloc, &mut rom, &mut cert, symbols, files, &mut out)
        }
        Shows::Longest => {
            let entry = matches.get_str(ENTRY);
            let by_rows = matches.get_flag(ROWS);
            longest_on(
                alloc, &mut rom, &mut cert, symbols, entry, by_rows, &mut out, notes,
            )
        }
    };
    hint_refused(rt, status, &rom, &cert, notes);
    let command = match shows {
        Shows::Longest => Command::Longest,
        Shows::List | Shows::Report => Command::List,
    };
    let status = conclude(alloc, command, status, &mut out, notes, Some(symbols));
    let failure = out.device().sink().failure();
    if is_closed_pipe(failure) {
        return status;
    }
    let used = [
        UsedDevice::input(&rom),
        UsedDevice::input(&cert),
        UsedDevice::failed("standard output", failure),
    ];
    end(notes, status, &used)
}
