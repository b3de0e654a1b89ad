// Inline calls: for callees that take their return address, and as contexts.

use crate::unrolling::try_unroll;
use analysis::{FlowFault, MAIN, NMI, sub_of};
use board_fetch::fetch;
use explored_plans::{ExploredPlan, Family, OF_CONTEXTS, REGISTERS, Search};
use inferred_rows::ContextPoint;
use intervals::ByteRange;
use plan_values::{Splitting, try_lookup, with_split};
use row_worklist::Watch;
use z80_decode::{Instr, Register8, RestartAddress, StackPair};

/// The address that an instruction calls, if it is a call.
fn called_by(instr: &Instr) -> Option<u16> {
    match instr {
        Instr::Call(address) | Instr::CallIf(_, address) => Some(*address),
        Instr::Restart(address) => Some(restart_at(*address)),
        _ => None,
    }
}

fn restart_at(address: RestartAddress) -> u16 {
    match address {
        RestartAddress::At00 => 0x00,
        RestartAddress::At08 => 0x08,
        RestartAddress::At10 => 0x10,
        RestartAddress::At18 => 0x18,
        RestartAddress::At20 => 0x20,
        RestartAddress::At28 => 0x28,
        RestartAddress::At30 => 0x30,
        RestartAddress::At38 => 0x38,
    }
}

/// The register with the low byte of a pair that is popped, if a split may be by it.
fn low_of(pair: StackPair) -> Option<Register8> {
    match pair {
        StackPair::Bc => Some(Register8::C),
        StackPair::De => Some(Register8::E),
        StackPair::Hl => Some(Register8::L),
        _ => None,
    }
}

fn called_at(search: &Search, address: u16) -> Option<u16> {
    called_by(&search.instr_at(address)?)
}

/// The addresses of the calls of a procedure, rising.
fn sites_of(search: &Search, proc: u32) -> Result<Vec<u16>, FlowFault> {
    let mut sites = Vec::new(search.alloc);
    for caller in search.explored.list.callers_of(search.alloc, proc)? {
        sites.push(ContextPoint::of(caller).address)?;
    }
    sites.sort_unstable();
    sites.dedup();
    Ok(sites)
}

fn is_inline(search: &Search, address: u16) -> bool {
    search.explored.said.inlines().contains(&address)
}

/// A plan in which the callers of a procedure that takes its return address are inline.
///
/// # Errors
///
/// `NoMemory` where memory was refused.
pub fn try_inline(
    search: &mut Search,
    refused: u16,
) -> Result<Option<Box<ExploredPlan>>, FlowFault> {
    let refusals = search.explored.refusals_at(refused);
    if refusals.has(0) && !is_inline(search, refused) {
        if let Some(entry) = called_at(search, refused) {
            if some_inline_calls(search, entry) {
                let mut sites = sites_of(search, sub_of(entry))?;
                sites.push(refused)?;
                return search.try_near(Family::Inlines(sites), refused, Watch::Nothing);
            }
        }
    }
    let takes = match search.instr_at(refused) {
        Some(instr) => matches!(instr, Instr::Pop(_) | Instr::ExchangeStack(_)),
        None => false,
    };
    if !refusals.has(10) || !takes {
        return Ok(None);
    }
    for proc in search.explored.procs_at(search.alloc, refused)? {
        if proc == MAIN || proc == NMI {
            continue;
        }
        let sites = sites_of(search, proc)?;
        if sites.is_empty() {
            continue;
        }
        let family = Family::Inlines(sites);
        let Some(explored) = search.try_near(family, refused, Watch::Nothing)? else {
            continue;
        };
        return Ok(Some(explored));
    }
    Ok(None)
}

/// Whether a call of this entry is inline.
fn some_inline_calls(search: &Search, entry: u16) -> bool {
    search
        .explored
        .said
        .inlines()
        .iter()
        .any(|site| called_at(search, *site) == Some(entry))
}

/// A plan with a split by which the inline calls of an entry are distinguished: by a register that differs between
/// them, or by the low byte of the return address that it pops.
///
/// # Errors
///
/// `NoMemory` where memory was refused.
pub fn try_inline_split(
    search: &mut Search,
    refused: u16,
) -> Result<Option<Box<ExploredPlan>>, FlowFault> {
    if !search.explored.refusals_at(refused).has_any(&OF_CONTEXTS) {
        return Ok(None);
    }
    for entry in inline_entries(search)? {
        let sites = inline_sites(search, entry)?;
        if sites.len() < 2 || search.explored.plan.has_split(search.context.base(), entry) {
            continue;
        }
        let proc = match search.explored.procs_at(search.alloc, entry)?.first() {
            Some(proc) => *proc,
            None => MAIN,
        };
        for register in REGISTERS {
            if let Some(parts) = parts_by_site(search, &sites, register)? {
                let splitting = Splitting {
                    proc,
                    at: entry,
                    register,
                    parts: parts.as_slice(),
                    ends: &[],
                };
                let found = with_split(search, refused, splitting)?;
                if found.is_some() {
                    return Ok(found);
                }
            }
        }
        let found = split_by_return(search, refused, entry, &sites, proc)?;
        if found.is_some() {
            return Ok(found);
        }
    }
    Ok(None)
}

/// The entries of inline calls, rising.
fn inline_entries(search: &Search) -> Result<Vec<u16>, FlowFault> {
    let mut entries = Vec::new(search.alloc);
    for site in search.explored.said.inlines() {
        if let Some(entry) = called_at(search, *site) {
            entries.push(entry)?;
        }
    }
    entries.sort_unstable();
    entries.dedup();
    Ok(entries)
}

/// The inline calls of an entry.
fn inline_sites(search: &Search, entry: u16) -> Result<Vec<u16>, FlowFault> {
    let mut sites = Vec::new(search.alloc);
    for site in search.explored.said.inlines() {
        if called_at(search, *site) == Some(entry) {
            sites.push(*site)?;
        }
    }
    Ok(sites)
}

/// The ranges of a register at calls that are reached, if those of each two are apart.
fn parts_by_site(
    search: &Search,
    sites: &[u16],
    register: Register8,
) -> Result<Option<Vec<ByteRange>>, FlowFault> {
    let mut parts: Vec<ByteRange> = Vec::new(search.alloc);
    let mut reached = 0usize;
    for site in sites {
        let rows = search.explored.rows_of(search.alloc, None, *site)?;
        if !rows.is_empty() {
            reached = reached.saturating_add(1);
        }
        for row in rows {
            let range = row.state.byte(register);
            if range.high().saturating_sub(range.low()) > 7 {
                return Ok(None);
            }
            if !parts.contains(&range) {
                parts.push(range)?;
            }
        }
    }
    parts.sort_unstable_by_key(|part| part.low());
    let mut last: Option<ByteRange> = None;
    for part in parts.as_slice() {
        if let Some(last) = last {
            if last.high() >= part.low() {
                return Ok(None);
            }
        }
        last = Some(*part);
    }
    if parts.len() < reached || parts.len() > 64 {
        return Ok(None);
    }
    Ok(Some(parts))
}

/// A plan with a split by the low byte of the return address, after the POP at the entry.
fn split_by_return(
    search: &mut Search,
    refused: u16,
    entry: u16,
    sites: &[u16],
    proc: u32,
) -> Result<Option<Box<ExploredPlan>>, FlowFault> {
    let Some(Instr::Pop(pair)) = search.instr_at(entry) else {
        return Ok(None);
    };
    let Some(register) = low_of(pair) else {
        return Ok(None);
    };
    let mut parts = Vec::new(search.alloc);
    for site in sites {
        let low = (site.wrapping_add(search.len_at(*site)) % 256) as u8;
        parts.push(ByteRange::single(low))?;
    }
    parts.sort_unstable_by_key(|part| part.low());
    parts.dedup();
    if parts.len() != sites.len() {
        return Ok(None);
    }
    with_split(
        search,
        refused,
        Splitting {
            proc,
            at: entry.wrapping_add(search.len_at(entry)),
            register,
            parts: parts.as_slice(),
            ends: &[],
        },
    )
}

/// A plan in which calls near before a refused row, or those of its procedure, are inline: each is then a context of
/// its own.
pub fn try_context(
    search: &mut Search,
    refused: u16,
) -> Result<Option<Box<ExploredPlan>>, FlowFault> {
    if !search.explored.refusals_at(refused).has_any(&OF_CONTEXTS) {
        return Ok(None);
    }
    for sites in contexts(search, refused)? {
        let first = sites.first().copied().unwrap_or(0);
        let rest = (search.explored.plan.findings.len() as u64)
            .wrapping_mul(0x1_0000)
            .wrapping_add(sites.len() as u64);
        if !search.has_trials() || !search.is_new((3, refused, first, rest))? {
            continue;
        }
        let Some(explored) = search.try_family(Family::Inlines(sites), refused)? else {
            continue;
        };
        if explored.rows_at(refused).is_empty() {
            continue;
        }
        if explored.refusals_at(refused).0 == 0 {
            if !search.explored.is_worse(&explored) {
                return Ok(Some(explored));
            }
            continue;
        }
        let found = within(search, explored, refused)?;
        if found.is_some() {
            return Ok(found);
        }
    }
    Ok(None)
}

/// A further move that helps a refused row in another explored, and leaves nothing worse than here.
fn within(
    search: &mut Search,
    explored: Box<ExploredPlan>,
    refused: u16,
) -> Result<Option<Box<ExploredPlan>>, FlowFault> {
    let before = search.exchange(explored)?;
    let found = next_move(search, refused);
    search.restore(before);
    match found? {
        Some(explored) if !search.explored.is_worse(&explored) => Ok(Some(explored)),
        _ => Ok(None),
    }
}

/// The first move that takes the refusals at an address away, beside inline calls and cells.
fn next_move(search: &mut Search, refused: u16) -> Result<Option<Box<ExploredPlan>>, FlowFault> {
    let found = try_inline_split(search, refused)?;
    if found.is_some() {
        return Ok(found);
    }
    let found = try_lookup(search, refused)?;
    if found.is_some() {
        return Ok(found);
    }
    try_unroll(search, refused)
}

/// Calls that may become inline together.
fn contexts(search: &Search, refused: u16) -> Result<Vec<Vec<u16>>, FlowFault> {
    let mut all = Vec::new(search.alloc);
    for proc in search.explored.procs_at(search.alloc, refused)? {
        let mut near = 0u32;
        for at in search.graph.before(search.alloc, proc, refused, 14)? {
            if near < 2 && called_at(search, at).is_some() && !is_inline(search, at) {
                let mut sites = Vec::new(search.alloc);
                sites.push(at)?;
                all.push(sites)?;
                near = near.saturating_add(1);
            }
        }
        if proc != MAIN && proc != NMI {
            let mut sites = sites_of(search, proc)?;
            sites.retain(|site| !is_inline(search, *site));
            if 1 <= sites.len() && sites.len() <= 32 {
                all.push(sites)?;
            }
        }
    }
    Ok(all)
}
