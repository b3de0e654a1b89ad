// The tracer: which event of a run has a line.

ghost use Rattle.std.specs.Prelude.{◌≡◌, ◌≢◌, ◌<◌, ◌+◌, ◌-◌, ◌++◌, ◌^◌, ℕ, List, Bool, true};
ghost use Rattle.board_step.specs.Hardware.{Hardware};
ghost use Rattle.board_step.specs.Kind.{kind_of};
ghost use Rattle.z80_actions.specs.Known.{IsKnownAt};
ghost use Rattle.z80_actions.specs.Returns.{is_return};
ghost use Rattle.board_step.specs.State.{BoardView};
ghost use Rattle.board_step.specs.Step.{Step};
ghost use Rattle.board_step.specs.declared.env.Env.{Env};
ghost use Rattle.board_step.specs.declared.event.Kind.{Kind as Kinds};
ghost use Rattle.run_lines.specs.Follows.{Follows, SaysReturned};
ghost use Rattle.run_lines.specs.declared.teller.Moment.{Moment as Moments};
ghost use Rattle.t_states.specs.Costs.{cost_of};
ghost use Rattle.z80_actions.specs.Action.{instr_of};

use board_step::{Event, Kind, Known};
use z80_actions::is_return;

/// A moment of a run, before an event or after it.
#[derive(Clone, Copy)]
pub struct Moment {
    /// The stack pointer.
    pub sp: u16,
    /// The T-states of the run so far.
    pub time: u64,
}

/// What the tracer reports of an event.
#[derive(Clone, Copy)]
pub enum Note {
    Nothing,
    /// It accepted an NMI.
    Begins,
    /// It ended the running NMI routine, which took this many T-states.
    Ends(u64),
}

/// Follows a run event by event, and decides which of them have a line.
#[derive(Clone, Copy)]
pub struct Teller {
    /// The number of events so far.
    pub events: u64,
    /// The moment before the acceptance of the running NMI routine, if one runs.
    // Between the two numbers, so that they are added to one by one and not as one vector.
    pub running: Option<Moment>,
    /// The T-states of the events so far.
    pub time: u64,
}

impl Teller {
    /// At the beginning of a run.
    pub fn new() -> Teller
        ensures { result ≡ record { events = 0; time = 0; running = None } }
    {
        Teller {
            events: 0,
            time: 0,
            running: None,
        }
    }

    /// Follows the run over an event and reports it. `before` and `after` are the stack pointers; `returned` says
    /// whether the event is an instruction that returned.
    pub fn follow(&mut self, event: &Event, before: u16, after: u16, returned: bool) -> Note
        requires events { self.old.events < 2 ^ 64 - 1 }
        requires time { self.old.time < 2 ^ 63 }
        ensures events { self.new.events ≡ self.old.events + 1 }
        ensures time { self.new.time ≡ self.old.time + event.now.t }
        ensures note { Follows self.old.running event.now.kind
            (record { sp = before; time = self.old.time })
            (record { sp = after; time = self.new.time }) returned result self.new.running }
    {
        let before = Moment {
            sp: before,
            time: self.time,
        };
        self.events += 1;
        self.time += u64::from(event.t);
        let after = Moment {
            sp: after,
            time: self.time,
        };
        next_note(&mut self.running, event.kind, before, after, returned)
    }
}

/// Reports an event between two moments, and updates the running routine.
fn next_note(
    running: &mut Option<Moment>,
    kind: Kind,
    before: Moment,
    after: Moment,
    returned: bool,
) -> Note
    ensures { Follows running.old kind before after returned result running.new }
{
    match kind {
        Kind::Accept => {
            *running = Some(before);
            Note::Begins
        }
        _ => end_note(running, after, returned),
    }
}

/// Reports an event that is no acceptance.
fn end_note(running: &mut Option<Moment>, after: Moment, returned: bool) -> Note
    ensures { (kind : Kinds) (before : Moments) → kind ≢ Kind.Accept
        → Follows running.old kind before after returned result running.new }
{
    match *running {
        Some(began) if returned && after.sp == began.sp => {
            *running = None;
            Note::Ends(after.time.saturating_sub(began.time))
        }
        _ => Note::Nothing,
    }
}

/// Whether an event is an instruction that returned, given what is known of the instruction.
pub fn has_returned(known: &Known, event: &Event) -> bool
    ensures { (hardware : Hardware) (s new : BoardView) (env : Env) → kind_of s ≡ Kinds.Instr
        → IsKnownAt hardware.rom s.regs.pc known.now → Step hardware s env event.now new
        → SaysReturned hardware s env result }
{
    returned_after(known, event.t)
}

/// Whether an instruction that took `t` T-states returned.
fn returned_after(known: &Known, t: u8) -> bool
    ensures { (rom : List ℕ) (at : ℕ) (taken : Bool) → IsKnownAt rom at known.now
        → t ≡ cost_of (instr_of known.now.action) taken
        → result ≡ is_return (instr_of known.now.action) taken }
{
    is_return(&known.action.instr(), t == known.costs.taken)
}
