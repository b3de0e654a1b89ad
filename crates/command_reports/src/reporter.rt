// Reports on a terminal how a command goes.

use command_streams::Meter;
use explored_plans::Progress;
use std::io::{IsTerminal, Stderr, Write};
use std::rt::Clock;
use std::time::Instant;

/// Reports how a command goes: one line on standard error that is written over again, from the first second on, at most
/// ten times a second. It writes nothing where standard error is no terminal.
#[derive(Drop)]
pub struct Reporter<'t, C: Clock> {
    clock: &'t C,
    stderr: Stderr,
    /// How many trials were left when the search began.
    trials: Option<u32>,
    /// What is done with bytes.
    passed: &'static str,
    start: Option<Instant>,
    /// How many tenths of a second had passed at the last line.
    tenths: u128,
}

impl<'t, C: Clock> Reporter<'t, C> {
    /// Reports on a search.
    pub fn searching(clock: &'t C, stderr: Stderr) -> Reporter<'t, C> {
        Reporter::of(clock, stderr, "")
    }

    /// Reports how many bytes were read, or written.
    pub fn passing(clock: &'t C, stderr: Stderr, passed: &'static str) -> Reporter<'t, C> {
        Reporter::of(clock, stderr, passed)
    }

    fn of(clock: &'t C, stderr: Stderr, passed: &'static str) -> Reporter<'t, C> {
        let start = if stderr.is_terminal() {
            Instant::now(clock).ok()
        } else {
            None
        };
        Reporter {
            clock,
            stderr,
            trials: None,
            passed,
            start,
            tenths: 9,
        }
    }

    /// Whether a line is due.
    fn is_due(&mut self) -> bool {
        let Some(start) = self.start else {
            return false;
        };
        let Ok(elapsed) = start.elapsed(self.clock) else {
            return false;
        };
        let tenths = elapsed.as_millis() / 100;
        if tenths <= self.tenths {
            return false;
        }
        self.tenths = tenths;
        true
    }
}

impl<'t, C: Clock> Progress for Reporter<'t, C> {
    fn tell(&mut self, left: u32, refused: usize) {
        let trials = *self.trials.get_or_insert(left);
        if self.is_due() {
            let taken = trials.saturating_sub(left);
            let _told = write!(
                self.stderr,
                "\r{taken} trials, {refused} addresses refused \r"
            );
        }
    }
}

impl<'t, C: Clock> Meter for Reporter<'t, C> {
    fn tell(&mut self, bytes: u64) {
        if self.is_due() {
            let passed = self.passed;
            let _told = write!(self.stderr, "\r{bytes} bytes {passed} \r");
        }
    }
}
