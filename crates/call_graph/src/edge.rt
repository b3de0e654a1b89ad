// Procedures and the calls between them.
ghost use Rattle.std.specs.Prelude.{◌≡◌, ℕ, ◌<◌, ◌≤◌, length, slice_index_or};
ghost use Rattle.std.specs.List.Sorted.{IsNonDecreasingBy};

/// The number of a procedure, from 0 in the order of the certificate.
pub type ProcId = u16;

/// The number of possible procedure numbers.
pub(crate) const NUMBERS: usize = 65_536;

/// A call from one procedure to another. Calls are ordered by caller, then by callee.
#[derive(Clone, Copy, PartialEq, Eq, PartialOrd, Ord)]
pub struct Edge {
    pub caller: ProcId,
    pub callee: ProcId,
}

/// Anything with a caller.
pub(crate) trait Call {
    ghost called_by: { Self → ℕ };

    /// The procedure that calls.
    fn caller(&self) -> ProcId
        ensures { result ≡ called_by self.now };
}

impl Call for Edge {
    ghost called_by = { λ edge. edge.caller };

    fn caller(&self) -> ProcId {
        self.caller
    }
}

/// The index of the first call whose caller is not below `proc`. The calls must be sorted by caller.
pub(crate) fn first_call<C: Call>(calls: &[C], proc: ProcId) -> usize
    requires { IsNonDecreasingBy C.called_by calls.now }
    ensures bound { result ≤ length calls.now }
    ensures before { (i : ℕ) (d : C) → i < result
        → C.called_by (slice_index_or calls.now i d) < proc }
    ensures from { (i : ℕ) (d : C) → result ≤ i → i < length calls.now
        → proc ≤ C.called_by (slice_index_or calls.now i d) }
{
    calls.partition_point(|call| call.caller() < proc)
}
