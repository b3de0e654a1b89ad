// A refusal of a certificate.

use abs_step::Reason;

/// The first reason that applies to a certificate, in the order of the rules (docs/CHECKER.md, "The table of reasons").
#[derive(Clone, Copy, Debug, PartialEq, Eq)]
pub struct Refused {
    /// The number of the refused row, from 0; None if the reason is one of the whole.
    pub row: Option<u32>,
    /// The row's address. For a reason of the whole it is 0, or 0066 where the NMI routine is at fault.
    pub address: u16,
    pub reason: Reason,
}
