// A board that is watched event by event.

ghost use Rattle.std.specs.Prelude.{OnErr, OnOk};
ghost use Rattle.texts.specs.Device.{HasFailed, CountsNoFailure};

use crate::lines::trace_line;
use address_map::{RamKind, Starts};
use board_step::{Board, Env, Event, Kind, Profile};
use run_lines::{Note, Teller, put_note};
use runner::cert_checker::Accepted;
use runner::{ResetLine, Summary};
use t_states::FRAME;
use texts::{DeviceFault, Sink, put};
use z80_actions::is_return;

/// The addresses at which instructions of an accepted ROM start.
pub(crate) fn starts_of(accepted: &Accepted) -> Starts {
    let mut starts = Starts::new();
    let code = accepted.code();
    for address in 0..0x4000u16 {
        if code.is_start(address) {
            starts.insert(address);
        }
    }
    starts
}

/// A board, and what was seen of its run. It tests each event for a trap, and does not share the code of the runner's
/// loop (docs/DECISIONS.md, "The loop of a run").
#[derive(Drop)]
pub(crate) struct WatchedRun<'a> {
    accepted: &'a Accepted<'a>,
    starts: &'a Starts,
    board: Board,
    teller: Teller,
    /// How many NMIs were accepted.
    nmis: u32,
    /// Whether an event trapped. No run of an accepted ROM does (docs/THEOREM.md).
    has_trapped: bool,
}

impl<'a> WatchedRun<'a> {
    /// A board right after the reset of a line.
    pub(crate) fn reset(
        accepted: &'a Accepted<'a>,
        starts: &'a Starts,
        line: ResetLine,
    ) -> WatchedRun<'a> {
        let mut reset = line.reset();
        // The phase of a line in form is below the frame's T-states.
        reset.phase = reset.phase.min(FRAME - 1);
        WatchedRun {
            accepted,
            starts,
            board: Board::reset(&reset),
            teller: Teller::new(),
            nmis: 0,
            has_trapped: false,
        }
    }

    /// Whether the run ends after so many NMIs.
    pub(crate) fn is_over(&self, until_nmi: Option<u32>) -> bool {
        match until_nmi {
            Some(most) => self.has_trapped || self.nmis >= most,
            None => self.has_trapped,
        }
    }

    /// Executes the next event. Its line of the trace, if there is a trace, and its line of the run are written.
    pub(crate) fn play_event<W: Sink>(
        &mut self,
        env: &Env,
        traces: bool,
        out: &mut W,
    ) -> Result<(), DeviceFault>
        ensures failed { OnErr result (HasFailed (W.state out.old) (W.state out.new)) }
        ensures told { OnOk result (CountsNoFailure (W.state out.old) (W.state out.new)) }
    {
        let number = self.teller.events;
        if traces {
            let line = trace_line(self.accepted, &self.board, number, self.teller.time);
            put(out, line.as_str().as_bytes())?;
        }
        let at = self.board.pc();
        let note = self.step(env);
        put_note(out, number, at, note)
    }

    /// Executes the next event. The result is what is reported of it.
    fn step(&mut self, env: &Env) -> Note {
        let before = self.board.sp();
        let profile = Profile {
            map: self.accepted.map(),
            starts: self.starts,
            region: self.accepted.certificate().region(),
        };
        match self.board.step_checked(self.accepted.rom(), &profile, env) {
            Ok(event) => self.follow(&event, before),
            Err(_) => {
                self.has_trapped = true;
                Note::Nothing
            }
        }
    }

    /// Follows the run over an event. `before` is the stack pointer before it.
    fn follow(&mut self, event: &Event, before: u16) -> Note {
        if event.kind == Kind::Accept {
            self.nmis = self.nmis.saturating_add(1);
        }
        let returned = self.has_returned(event);
        let after = self.board.sp();
        // A run has at most 4,294,967,295 events, so there is room.
        if self.teller.events >> 40 == 0 && self.teller.time >> 50 == 0 {
            return self.teller.follow(event, before, after, returned);
        }
        Note::Nothing
    }

    /// Whether an event is an instruction that returned.
    fn has_returned(&self, event: &Event) -> bool {
        let code = self.accepted.code();
        match (event.kind, code.instr_at(event.at), code.costs_at(event.at)) {
            (Kind::Instr, Some(instr), Some((taken, _))) => is_return(&instr, event.t == taken),
            _ => false,
        }
    }

    /// Writes the bytes of work, video and object RAM.
    pub(crate) fn write_ram<K: Sink>(&self, ram: &mut K) -> Result<(), DeviceFault>
        ensures failed { OnErr result (HasFailed (K.state ram.old) (K.state ram.new)) }
        ensures told { OnOk result (CountsNoFailure (K.state ram.old) (K.state ram.new)) }
    {
        put(ram, self.board.ram(RamKind::Work))?;
        put(ram, self.board.ram(RamKind::Video))?;
        put(ram, self.board.ram(RamKind::Object))
    }

    /// What the run came to.
    pub(crate) fn summary(&self) -> Summary {
        let regs = self.board.regs();
        let main = regs.main;
        Summary {
            events: self.teller.events,
            time: u128::from(self.teller.time),
            pc: regs.pc,
            sp: regs.sp,
            pairs: [main.af(), main.bc(), main.de(), main.hl(), regs.ix, regs.iy],
            sums: [
                sum_of(self.board.ram(RamKind::Work)),
                sum_of(self.board.ram(RamKind::Video)),
                sum_of(self.board.ram(RamKind::Object)),
            ],
        }
    }
}

/// The sum of the bytes of a RAM, which has at most 1,024.
fn sum_of(bytes: &[u8]) -> u32 {
    let mut sum = 0u32;
    for byte in bytes {
        sum = sum.saturating_add(u32::from(*byte));
    }
    sum
}
