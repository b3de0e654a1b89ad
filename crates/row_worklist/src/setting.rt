// What an inferring analysis works on, and which refused rows end it.

use analysis::Task;
use inferred_rows::{Guide, Manner};

/// What an inferring analysis works on.
#[derive(Clone, Copy)]
pub struct Setting<'s> {
    pub task: &'s Task<'s>,
    pub guide: &'s Guide,
    pub manner: Manner,
}

/// Which rows end an analysis if they are refused before the fixpoint is reached.
#[derive(Clone, Copy, PartialEq, Eq)]
pub enum Watch {
    Nothing,
    /// The rows at an address.
    Address(u16),
    /// The same. Where an analysis goes on from the rows of another one, called procedures come first.
    Callees(u16),
    Everything,
}

impl Watch {
    /// Whether a row at an address ends the analysis if it is refused.
    pub(crate) fn is_at(self, address: u16) -> bool {
        match self {
            Watch::Nothing => false,
            Watch::Address(at) | Watch::Callees(at) => at == address,
            Watch::Everything => true,
        }
    }
}
