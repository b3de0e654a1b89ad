// The document of a command.

ghost use Rattle.std.specs.Prelude.{◌≡◌, ◌≢◌, ◌⊎◌};
ghost use Rattle.texts.specs.Device.{HasFailed, CountsNoFailure};

use crate::explained::add_explanation;
use crate::listings::add_listing;
use crate::members::{Items, Members};
use crate::runs::add_run;
use crate::verdicts::{add_refusal, add_verdict};
use crate::walks::add_walk;
use command_parts::ExitStatus;
use std::alloc::{AllocError, Global};
use symbols::Symbols;
use texts::{Sink, put};

/// The version of the documents' form. A member that is new does not change it.
const VERSION: u64 = 1;

/// A command whose answer is a document.
#[derive(Clone, Copy, PartialEq, Eq)]
pub enum Command {
    Check,
    Verify,
    Suggest,
    Explain,
    List,
    Longest,
    Run,
}

impl Command {
    /// Its word on the command line.
    fn name(self) -> &'static str {
        match self {
            Command::Check => "check",
            Command::Verify => "verify",
            Command::Suggest => "suggest",
            Command::Explain => "explain",
            Command::List => "list",
            Command::Longest => "longest",
            Command::Run => "run",
        }
    }
}

/// What a command said.
#[derive(Clone, Copy)]
pub struct Told<'t, 'n, 's> {
    pub command: Command,
    /// Its exit status.
    pub status: u8,
    /// What it wrote in the place of standard output.
    pub text: &'t [u8],
    /// What it wrote in the place of standard error.
    pub notes: &'n [u8],
    /// The names for addresses, if a file has them.
    pub symbols: Option<&'s Symbols>,
}

/// Writes what a command said as one JSON document in one line (docs/JSON.md). There is a document for the statuses 0
/// and 1 alone.
///
/// The result is the exit status: the command's own; 3 if `out` failed, 4 if memory was refused for the document. What
/// was written before a failure stays.
pub fn write_document<W: Sink>(alloc: Global, told: Told, out: &mut W) -> u8
    // The status of the command stays, but where the document could not be written.
    ensures done { result ≡ 0 → told.entry.status ≡ 0 }
    ensures refused { result ≡ 1 → told.entry.status ≡ 1 }
    ensures usage { result ≡ 2 → told.entry.status ≡ 2 }
    ensures device { result ≡ 3
        → (told.entry.status ≡ 3) ⊎ HasFailed (W.state out.old) (W.state out.new) }
    ensures told { result ≢ 3 → CountsNoFailure (W.state out.old) (W.state out.new) }
    ensures memory { result ≡ 4 → out.new ≡ out.old }
    // After a device failed nothing is written.
    ensures failed { told.entry.status ≢ 0 → told.entry.status ≢ 1
        → (out.new ≡ out.old) × (result ≡ told.entry.status) }
{
    if told.status != ExitStatus::Done.code() && told.status != ExitStatus::Refused.code() {
        return told.status;
    }
    let Ok(document) = document_of(alloc, told) else {
        return ExitStatus::OutOfMemory.code();
    };
    match put(out, document.as_bytes()) {
        Ok(()) => told.status,
        Err(_) => ExitStatus::Device.code(),
    }
}

/// The text of the document, with its line feed.
fn document_of(alloc: Global, told: Told) -> Result<String, AllocError> {
    let mut members = Members::new(alloc);
    members.number("version", Some(VERSION));
    members.text("command", told.command.name());
    members.number("status", Some(u64::from(told.status)));
    add_answer(&mut members, told, str::from_utf8(told.text).unwrap_or(""));
    members.array("warnings", lines_of(alloc, told.notes));
    members.array("symbols", symbols_of(alloc, told.symbols));
    let mut document = members.into_value()?.to_string(alloc)?;
    document.push_str("\n")?;
    Ok(document)
}

/// Adds what a command answered.
fn add_answer(members: &mut Members, told: Told, text: &str) {
    let is_done = told.status == ExitStatus::Done.code();
    match told.command {
        Command::Check | Command::Verify => add_verdict(members, text),
        Command::Suggest => add_suggestion(members, is_done, text),
        Command::Explain => add_explanation(members, text),
        Command::Run => add_run(members, text),
        Command::List if is_done => add_listing(members, text),
        Command::Longest if is_done => add_walk(members, text),
        Command::List | Command::Longest => add_refusal(members, text),
    }
}

/// Adds a file of annotations, or why there is none.
fn add_suggestion(members: &mut Members, is_done: bool, text: &str) {
    if is_done {
        members.text("verdict", "accepted");
    } else {
        members.text("verdict", "refused");
        add_refusal(members, text.lines().next().unwrap_or(""));
    }
    if text.lines().count() > 1 {
        members.text("annotations", text);
    }
}

/// The lines of a text. A byte that is no text ends it.
fn lines_of(alloc: Global, bytes: &[u8]) -> Items {
    let mut lines = Items::new(alloc);
    for line in str::from_utf8(bytes).unwrap_or("").lines() {
        lines.text(line);
    }
    lines
}

/// The names and the values of symbols.
fn symbols_of(alloc: Global, symbols: Option<&Symbols>) -> Items {
    let mut named = Items::new(alloc);
    if let Some(symbols) = symbols {
        for name in symbols.names() {
            let mut symbol = Members::new(alloc);
            symbol.text("name", name.as_str());
            symbol.number("value", symbols.value_of(name.as_str()).map(u64::from));
            named.object(symbol);
        }
    }
    named
}
