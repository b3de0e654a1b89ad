// Restarts: a called procedure without a time leaves all that called it, and goes on in main.

ghost use Rattle.std.specs.Prelude.{◌≡◌};
ghost use Rattle.check_ways.specs.Ways.{proc_after, restarts, state_after};

use crate::subject::Subject;
use abs_state::AbsState;
use abs_step::Next;
use call_graph::ProcId;
use check_steps::{restarted, restarts_by};

impl<'a> Subject<'a> {
    /// Whether the row is a restart: the machine goes on in main, with an empty stack (docs/CHECKER.md, "Restarts").
    pub fn restarts(&self) -> bool
        ensures { result ≡ restarts self.now }
    {
        restarts_by(self.certificate.version(), &self.proc, &self.decoded)
    }

    /// The procedure in which a jump of the row arrives.
    pub(crate) fn proc_after(&self) -> ProcId
        ensures { result ≡ proc_after self.now }
    {
        if self.restarts() { 0 } else { self.row.proc }
    }

    /// The state in which a jump of the row arrives.
    pub(crate) fn state_after(&self, next: &Next) -> AbsState
        ensures { result ≡ state_after self.now next.now.state }
    {
        if self.restarts() {
            restarted(&next.state)
        } else {
            next.state.copied()
        }
    }
}
