// What the ROM shows for a note: where a variable is loaded, and which instructions store in a cell.

use abs_step::Reason;
use analysis::{FlowFault, judged_row};
use board_fetch::fetch;
use disassembly::spelled;
use explored_plans::SearchContext;
use inferred_rows::ContextPoint;
use loop_bounds::Variable;
use plan_search::Inference;
use row_graph::FlowGraph;
use std::alloc::{AllocError, Global};
use symbols::Symbols;
use z80_decode::{Instr, Place, Register8, Register16};

/// How many steps before a row its variables are looked for.
const DISTANCE: u16 = 40;

/// How many stores in a cell are listed.
const STORES: usize = 4;

/// What the comments of a file are made of.
#[derive(Drop)]
pub(crate) struct Evidence<'c, 'e, 'r> {
    pub(crate) alloc: Global,
    pub(crate) symbols: &'c Symbols,
    context: &'c SearchContext<'e>,
    pub(crate) found: &'e Inference<'r, 'e>,
    graph: FlowGraph,
}

impl<'c, 'e, 'r> Evidence<'c, 'e, 'r> {
    /// The evidence for what was found in a context.
    ///
    /// # Errors
    ///
    /// `NoMemory` where memory was refused.
    pub(crate) fn of(
        alloc: Global,
        symbols: &'c Symbols,
        context: &'c SearchContext<'e>,
        found: &'e Inference<'r, 'e>,
    ) -> Result<Evidence<'c, 'e, 'r>, FlowFault> {
        let edges = found.explored.edges(alloc, context)?;
        Ok(Evidence {
            alloc,
            symbols,
            context,
            found,
            graph: FlowGraph::of(alloc, &edges)?,
        })
    }

    /// The instruction at an address as `0083 LDIR`, with its label where there is one, as `0083 send+9 LDIR`; the
    /// address alone where no instruction stands there.
    pub(crate) fn shown(&self, address: u16) -> Result<String, AllocError> {
        let alloc = self.alloc;
        let here = self.labelled(address)?;
        match fetch(self.context.rom(), address) {
            Ok((instr, len)) => {
                let text = spelled(&instr, address.wrapping_add(u16::from(len)));
                format!(in alloc; "{here} {text}")
            }
            Err(_) => Ok(here),
        }
    }

    /// An address and, where there is one, its label: `0083 send+9`.
    pub(crate) fn labelled(&self, address: u16) -> Result<String, AllocError> {
        let alloc = self.alloc;
        match self.symbols.label_at(address) {
            Some(label) => format!(in alloc; "{address:04X} {label}"),
            None => format!(in alloc; "{address:04X}"),
        }
    }

    /// The reason against the first refused row at an address, by procedure; None if only a successor is missing.
    pub(crate) fn reason_at(&self, address: u16) -> Option<Reason> {
        for (_, number) in self.found.explored.rows_at(address) {
            if let Some(row) = self.found.explored.list.row(*number) {
                if row.reason.is_some() {
                    return row.reason;
                }
            }
        }
        None
    }

    /// The nearest address before a row at which a variable is loaded with a constant.
    pub(crate) fn load_of(&self, at: u16, variable: &Variable) -> Result<Option<u16>, FlowFault> {
        for (_, number) in self.found.explored.rows_at(at) {
            let proc = ContextPoint::of(*number).proc;
            for before in self.graph.before(self.alloc, proc, at, DISTANCE)? {
                if let Ok((instr, _)) = fetch(self.context.rom(), before) {
                    if loads(&instr, variable) {
                        return Ok(Some(before));
                    }
                }
            }
        }
        Ok(None)
    }

    /// The addresses of the first rows, rising, that store in a byte and in no other.
    pub(crate) fn stores_in(&self, cell: u16) -> Result<Vec<u16>, FlowFault> {
        let mut stores = Vec::new(self.alloc);
        let Some(task) = self.context.task(&self.found.explored.said) else {
            return Ok(stores);
        };
        for (number, row) in self.found.explored.list.rows().iter() {
            let point = ContextPoint::of(*number);
            let judged = judged_row(
                self.alloc,
                &task,
                point.plain(),
                false,
                &row.state,
                &row.parts,
            );
            let is_store = judged
                .writes
                .iter()
                .any(|write| write.at.value() == Some(cell));
            if is_store && !stores.contains(&point.address) {
                stores.push(point.address)?;
            }
            if stores.len() >= STORES {
                return Ok(stores);
            }
        }
        Ok(stores)
    }
}

/// Whether an instruction loads a variable, or the pair that has it, with a constant.
fn loads(instr: &Instr, variable: &Variable) -> bool {
    match (instr, variable) {
        (Instr::LoadPair(Register16::Bc, _), Variable::Bc | Variable::B | Variable::C) => true,
        (Instr::LoadPair(Register16::De, _), Variable::De | Variable::D | Variable::E) => true,
        (Instr::LoadPair(Register16::Hl, _), Variable::Hl | Variable::H | Variable::L) => true,
        (Instr::LoadPair(Register16::Ix, _), Variable::Ix) => true,
        (Instr::LoadPair(Register16::Iy, _), Variable::Iy) => true,
        (Instr::LoadImmediate(Place::Register(register), _), variable) => {
            is_register(*register, variable)
        }
        _ => false,
    }
}

fn is_register(register: Register8, variable: &Variable) -> bool {
    matches!(
        (register, variable),
        (Register8::A, Variable::A)
            | (Register8::B, Variable::B)
            | (Register8::C, Variable::C)
            | (Register8::D, Variable::D)
            | (Register8::E, Variable::E)
            | (Register8::H, Variable::H)
            | (Register8::L, Variable::L)
    )
}
