// Plays of an input.

ghost use Rattle.std.specs.Prelude.{◌≢◌, ◌≡◌};
ghost use Rattle.cert_checker.specs.Certified.{hardware_on};
ghost use Rattle.runner.specs.Playing.{HasNoEnv, HasNoReset, LONGEST, Plays, PlaysInput, ReadsInputLine, TakesEnv, TakesReset};
ghost use Rattle.texts.specs.Incoming.{EndsWell, FailsAmidLine, unread_of};

use crate::fault::PlayFault;
use crate::input::{EnvLine, LINE_LEN, ResetLine};
use crate::machine::Summary;
use crate::output::summary_lines;
use crate::player::Player;
use arrayvec::ArrayVec;
use cert_checker::Accepted;
use texts::{DeviceFault, Incoming, LineEnd, Sink, Source, put};

/// Plays an input (docs/PROGRAM.md, "INPUT") on an accepted ROM for at most `steps` events. The lines of its NMI
/// routines are written as they come, and the summary at the end ("A run's lines"). A line of the input is read and
/// judged only when its events are needed; the first line is always needed.
///
/// # Errors
///
/// `Line` has the number, counted from 1, of the first needed line that is out of form; the lines of the events before
/// it were written. `Read` and `Write` come only where that device failed. What was written then is a prefix of the
/// text of each input that begins with the bytes that the input gave by then. After `Read` these bytes end inside a
/// needed line, before its line feed and its 31st byte: the input is asked for nothing beyond a needed line.
pub fn play<R: Source, W: Sink>(
    accepted: &Accepted,
    steps: u32,
    input: &mut R,
    out: &mut W,
) -> Result<Summary, PlayFault>
    ensures { Plays (hardware_on accepted.now) steps (R.state input.old) (R.state input.new) result
        (W.state out.old) (W.state out.new) }
{
    let summary = match play_input(accepted, steps, input, out) {
        Ok(summary) => summary,
        Err(fault) => return Err(fault),
    };
    match put(out, summary_lines(&summary).bytes()) {
        Ok(()) => Ok(summary),
        Err(DeviceFault) => Err(PlayFault::Write),
    }
}

/// Plays an input and writes the lines of its events, without the summary.
fn play_input<R: Source, W: Sink>(
    accepted: &Accepted,
    steps: u32,
    input: &mut R,
    out: &mut W,
) -> Result<Summary, PlayFault>
    ensures { PlaysInput (hardware_on accepted.now) steps (R.state input.old) (R.state input.new)
        result (W.state out.old) (W.state out.new) }
{
    let mut incoming = Incoming::new();
    let reset = first_line(&mut incoming, input)?;
    let mut player = Player::reset(accepted, &reset.reset());
    player.machine.never_nests();
    let mut left = steps;
    let mut number = 1;
    while left > 0 {
        number += 1;
        let Some(line) = next_env(&mut incoming, number, input)? else {
            return Ok(player.summary());
        };
        let count = line.count.min(left);
        match player.play_events(&line.env(), count, out) {
            Ok(()) => left -= count,
            Err(DeviceFault) => return Err(PlayFault::Write),
        }
    }
    Ok(player.summary())
}

/// The first line of an input.
fn first_line<R: Source>(incoming: &mut Incoming, input: &mut R) -> Result<ResetLine, PlayFault>
    ensures line { ReadsInputLine TakesReset HasNoReset 1
        (unread_of incoming.old (R.state input.old)) result
        (unread_of incoming.new (R.state input.new)) }
    ensures at_end { result ≢ Err PlayFault.Read → EndsWell incoming.old (R.state input.old)
        → EndsWell incoming.new (R.state input.new) }
    ensures amid { result ≡ Err PlayFault.Read
        → FailsAmidLine LONGEST (unread_of incoming.old (R.state input.old)) (R.state input.new) }
{
    let mut text = ArrayVec::<u8, LINE_LEN>::new();
    match incoming.next_line(input, &mut text) {
        Ok(LineEnd::Feed) => match ResetLine::of(text.as_slice()) {
            Some(line) => Ok(line),
            None => Err(PlayFault::Line(1)),
        },
        Ok(LineEnd::Bad) => Err(PlayFault::Line(1)),
        Ok(LineEnd::Nothing) => Err(PlayFault::Line(1)),
        Err(DeviceFault) => Err(PlayFault::Read),
    }
}

/// The next line, by its number; None at the end of the input.
fn next_env<R: Source>(
    incoming: &mut Incoming,
    number: u64,
    input: &mut R,
) -> Result<Option<EnvLine>, PlayFault>
    ensures line { ReadsInputLine TakesEnv HasNoEnv number
        (unread_of incoming.old (R.state input.old)) result
        (unread_of incoming.new (R.state input.new)) }
    ensures at_end { result ≢ Err PlayFault.Read → EndsWell incoming.old (R.state input.old)
        → EndsWell incoming.new (R.state input.new) }
    ensures amid { result ≡ Err PlayFault.Read
        → FailsAmidLine LONGEST (unread_of incoming.old (R.state input.old)) (R.state input.new) }
{
    let mut text = ArrayVec::<u8, LINE_LEN>::new();
    match incoming.next_line(input, &mut text) {
        Ok(LineEnd::Feed) => match EnvLine::of(text.as_slice()) {
            Some(line) => Ok(Some(line)),
            None => Err(PlayFault::Line(number)),
        },
        Ok(LineEnd::Bad) => Err(PlayFault::Line(number)),
        Ok(LineEnd::Nothing) => Ok(None),
        Err(DeviceFault) => Err(PlayFault::Read),
    }
}
