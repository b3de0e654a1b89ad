// What a search is given.

use crate::deduced::{board_of_top, first_top};
use address_map::{Region, Rom};
use analysis::FlowFault;
use annotations::Given;
use cert_lines::{BoardMap, Version, WORK_LEN};
use std::alloc::Global;
use t_states::MAX_BUDGET;

/// What a search is given: the region of the stack, the budget, the board, the notes that stay, and the rules.
#[derive(Clone, Copy)]
pub struct Base<'g> {
    pub region: Region,
    /// The T-states that the NMI routine may take; None if there is no routine.
    pub budget: Option<u16>,
    pub board: BoardMap,
    /// The notes that stay. Its region, budget and map are already in the fields above.
    pub given: &'g Given,
    /// The version whose rules judge the rows. Versions 1 and 2 have the same rules.
    pub version: Version,
}

impl<'g> Base<'g> {
    /// What is given, and what the ROM says of its board and of the stack. The rules are those of version 2.
    ///
    /// # Errors
    ///
    /// `NoMemory` where memory was refused.
    pub fn deduced(alloc: Global, rom: &Rom, given: &'g Given) -> Result<Base<'g>, FlowFault> {
        let first = first_top(alloc, rom)?;
        let top = match (given.top, first) {
            (Some(top), _) => top,
            (None, Some(top)) => top,
            (None, None) => {
                let board = given.board.unwrap_or(BoardMap::Galaxian);
                board.work_start().wrapping_add(WORK_LEN)
            }
        };
        let board = match given.board {
            Some(board) => board,
            None => board_of_top(rom, top),
        };
        let low = given.low.unwrap_or(top.wrapping_sub(2));
        let budget = match given.nmi {
            Some(false) => None,
            Some(true) => Some(given.budget.unwrap_or(MAX_BUDGET as u16)),
            None => given.budget,
        };
        Ok(Base {
            region: Region { low, top },
            budget,
            board,
            given,
            version: Version::Two,
        })
    }
}
