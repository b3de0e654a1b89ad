// The numbers of reasons of the whole, and which limit of certificates is exceeded.

use abs_step::Reason;
use address_map::Region;
use analysis::{FlowFault, facts_at};
use annotations::Annotations;
use cert_form::{CELL_LIMIT, INLINE_LIMIT, ROW_LIMIT};
use cert_writer::{WriterFault, certify};
use check_rules::{main_depth, nmi_depth};
use explanations::{Explored, Refusal};
use inferred_rows::ContextPoint;
use refusal_texts::{Bounds, add_line};
use remedies::Remedy;
use std::alloc::Global;
use tried_notes::with_region;

/// The refusal that a writer reports, if it reports one.
pub fn first_of(fault: &WriterFault) -> Option<(u16, Reason)> {
    match fault {
        WriterFault::Refused(refused) => Some((refused.address, refused.reason)),
        WriterFault::Recursion(_)
        | WriterFault::LoopUnbounded(_)
        | WriterFault::Limit
        | WriterFault::NoMemory => None,
    }
}

/// Whether a refusal is of the whole certificate.
pub fn is_about_whole(refusal: &Refusal) -> bool {
    refusal.row.is_none()
}

/// The numbers that reasons of the whole are about. A remedy that was tried gives those that an accepted certificate
/// has.
///
/// # Errors
///
/// `NoMemory` where memory was refused.
pub fn bounds_of(
    alloc: Global,
    bytes: &[u8],
    said: &Annotations,
    remedy: &Remedy,
) -> Result<Bounds, FlowFault> {
    let mut bounds = Bounds {
        region: said.region(),
        work_start: said.board().work_start(),
        depths: None,
        time: None,
        budget: said.budget(),
    };
    match remedy {
        Remedy::Stack(region) => {
            bounds.depths = depths_with(alloc, bytes, said, *region)?;
        }
        Remedy::Budget(time) => bounds.time = Some(u32::from(*time)),
        Remedy::Notes(_)
        | Remedy::WithoutFacts(_)
        | Remedy::Instead(_)
        | Remedy::Above
        | Remedy::Infer
        | Remedy::Unknown
        | Remedy::Untried => {}
    }
    Ok(bounds)
}

/// The bytes of stack of main code and of the NMI routine, where the ROM is accepted with a region.
fn depths_with(
    alloc: Global,
    bytes: &[u8],
    said: &Annotations,
    region: Region,
) -> Result<Option<(u32, u32)>, FlowFault> {
    let other = with_region(alloc, said, region)?;
    match certify(alloc, bytes, &other) {
        Ok(accepted) => {
            let certificate = accepted.certificate();
            let main = u32::from(main_depth(certificate));
            Ok(Some((main, u32::from(nmi_depth(certificate)))))
        }
        Err(WriterFault::NoMemory) => Err(FlowFault::NoMemory),
        Err(_) => Ok(None),
    }
}

/// Adds which limit of certificates is exceeded. `explored` is the analysis, where it came to its end.
///
/// # Errors
///
/// `NoMemory` where memory was refused.
pub fn add_too_large(
    text: &mut String,
    alloc: Global,
    said: &Annotations,
    explored: Option<&Explored>,
) -> Result<(), FlowFault> {
    text.push_str("too large\n")?;
    let line = limit_text(alloc, said, explored)?;
    add_line(text, line.as_str())?;
    text.push_str("  see: docs/ANNOTATIONS.md, \"What is refused\", for each limit\n")?;
    Ok(())
}

/// The limit that is exceeded, with what was counted.
fn limit_text(
    alloc: Global,
    said: &Annotations,
    explored: Option<&Explored>,
) -> Result<String, FlowFault> {
    let (cells, inlines) = (said.cells().len(), said.inlines().len());
    if cells > CELL_LIMIT {
        return Ok(format!(in alloc; "{cells} cells of at most {CELL_LIMIT}: say fewer")?);
    }
    if inlines > INLINE_LIMIT {
        return Ok(format!(in alloc;
            "{inlines} inline calls of at most {INLINE_LIMIT}: say fewer"
        )?);
    }
    for note in said.facts() {
        let count = facts_at(said.facts(), note.at).len();
        if count > 4 {
            let at = note.at;
            return Ok(format!(in alloc;
                "{count} facts at {at:04X} of at most 4: say fewer there"
            )?);
        }
    }
    match explored {
        Some(explored) => match nested_loops(alloc, explored)? {
            Some((outer, inner)) => Ok(format!(in alloc;
                "a depth, a time or a potential is more than a certificate can say; the timed loop at {inner:04X} lies in that at {outer:04X}: split the outer one by its counter"
            )?),
            None => Ok(String::from_str(
                alloc,
                "a depth, a time or a potential is more than a certificate can say",
            )?),
        },
        None => {
            let mut line = format!(in alloc;
                "more than {ROW_LIMIT} rows, or 1024 procedures: use fewer parts of splits and fewer inline calls"
            )?;
            if let Some(split) = most_parts(said) {
                let (at, parts) = split;
                write!(line, "; the split at {at:04X} has {parts} parts")?;
            }
            Ok(line)
        }
    }
}

/// The heads of the first nested pair of loops in a timed procedure: the outer head, then the inner one.
fn nested_loops(alloc: Global, explored: &Explored) -> Result<Option<(u16, u16)>, FlowFault> {
    let mut last = None;
    for (number, _) in explored.list.rows().iter() {
        let proc = ContextPoint::of(*number).proc;
        if last == Some(proc) {
            continue;
        }
        last = Some(proc);
        if !explored.list.is_timed(proc) {
            continue;
        }
        let loops = explored.loops(alloc, proc)?;
        for outer in loops.as_slice() {
            for inner in loops.as_slice() {
                if outer.is_around(inner) {
                    return Ok(Some((outer.head, inner.head)));
                }
            }
        }
    }
    Ok(None)
}

/// The split with the most parts, by its address.
fn most_parts(said: &Annotations) -> Option<(u16, usize)> {
    let mut most: Option<(u16, usize)> = None;
    for split in said.splits() {
        let parts = split.parts.len();
        let is_more = match most {
            Some((_, before)) => parts > before,
            None => true,
        };
        if is_more {
            most = Some((split.at, parts));
        }
    }
    most
}

/// Whether a reason has lines of its own in a certificate.
pub fn is_of_bounds(reason: Reason) -> bool {
    matches!(reason, Reason::StackDepth | Reason::Budget)
}
