// The commands that judge a certificate or migrate it.

use crate::devices::{Out, input, stdout};
use crate::naming::{has_names, names, symbols_of, tell_refused};
use crate::running::hint_refused;
use crate::streams::{Answer, Remarks, answer};
use certificate::Version;
use clap::ArgMatches;
use command_parts::ExitStatus;
use command_reports::{Limits, UsedDevice, clash_of, end, report_clash, version_of};
use command_streams::Watched;
use command_words::{JSON, LISTING, QUIET, SYMBOLS, TO};
use commands::{migrate_on, verify_on};
use file_devices::Output;
use json_documents::{Command, conclude};
use named_reports::hint_no_certificate;

/// `galcert verify`. The result is the exit status.
pub fn verify_files<'a>(rt: &'a HostRuntime, matches: &ArgMatches<'a>, notes: &mut Remarks) -> u8 {
    let Some(limits) = Limits::of(matches, notes) else {
        return ExitStatus::Usage.code();
    };
    if let Some(clash) = clash_of(rt, matches, &["ROM", "CERT", SYMBOLS, LISTING], None) {
        return report_clash(notes, &clash);
    }
    let names = match names(rt, matches, notes, has_names(matches)) {
        Ok(names) => names,
        Err(status) => return status,
    };
    let alloc = rt.alloc();
    let mut rom = input(rt, matches, "ROM");
    let mut cert = input(rt, matches, "CERT");
    let mut out = Watched::new(verdict_output(rt, matches));
    let status = verify_on(alloc, &mut rom, &mut cert, &mut out);
    tell_refused(rt, names.as_ref(), status, &out, notes);
    hint_refused(rt, status, &rom, &cert, notes);
    let status = limits.judge(notes, status, &out);
    let mut out = out.into_inner();
    let symbols = symbols_of(names.as_ref());
    let status = conclude(alloc, Command::Verify, status, &mut out, notes, symbols);
    let used = [
        UsedDevice::input(&rom),
        UsedDevice::input(&cert),
        UsedDevice::stdout(out.device()),
    ];
    end(notes, status, &used)
}

/// Where a verdict goes: nowhere if it is not wanted.
fn verdict_output<'a>(rt: &'a HostRuntime, matches: &ArgMatches) -> Answer<'a> {
    answer(rt, matches.get_flag(JSON), wanted_output(rt, matches))
}

/// Standard output; nowhere if it is not wanted.
fn wanted_output<'a>(rt: &'a HostRuntime, matches: &ArgMatches) -> Out<'a> {
    if matches.get_flag(QUIET) {
        return Output::nowhere();
    }
    stdout(rt)
}

/// `galcert migrate`. The result is the exit status.
pub fn migrate_file<'a>(rt: &'a HostRuntime, matches: &ArgMatches<'a>, notes: &mut Remarks) -> u8 {
    let Some(version) = version_of(notes, matches, TO, Version::Two) else {
        return ExitStatus::Usage.code();
    };
    let mut cert = input(rt, matches, "CERT");
    let mut out = stdout(rt);
    let status = migrate_on(rt.alloc(), version, &mut cert, &mut out);
    if status == ExitStatus::Refused.code() {
        hint_no_certificate(rt.alloc(), &cert, notes);
    }
    end(
        notes,
        status,
        &[UsedDevice::input(&cert), UsedDevice::stdout(&out)],
    )
}
