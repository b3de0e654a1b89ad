// Nested blocks: where time goes, and which procedure calls which.

use call_graph::ProcId;
use folded_walks::{ItemKind, ProcWalk, Walks};
use report_parts::{Page, Reported, grouped, ratio, width_text, with};
use std::alloc::AllocError;

/// The most blocks of a picture.
const MOST: u32 = 20_000;

/// A block is shown from so many millionths of the whole on.
const LEAST: u64 = 4_000;

/// One, in millionths.
const WHOLE: u64 = 1_000_000;

/// A block of time, or the end of a list.
#[derive(Clone, Copy)]
enum Block {
    /// A procedure: so many calls of it, their T-states, those of the block above, its millionths of the whole, and how
    /// deep it stands.
    Proc(ProcId, u64, u64, u64, u64, u8),
    /// A loop of the way of a procedure, by its number, with the same.
    Loop(ProcId, usize, u64, u64),
    /// The end of an item, or of a list.
    End(&'static str),
}

/// Adds the nested blocks of a way.
pub fn add_flame(
    report: &Reported,
    page: &mut Page,
    walks: &Walks,
    walk: &ProcWalk,
) -> Result<(), AllocError> {
    page.raw(
        "<div class=\"flame\" role=\"region\" aria-label=\"T-states by procedure, nested\" tabindex=\"0\"><ul>",
    );
    let sum = u64::from(walk.sum).max(1);
    let mut blocks = Vec::new(report.alloc);
    blocks.push(Block::Proc(walks.root(), 1, sum, sum, WHOLE, 0))?;
    for _ in 0..MOST {
        let Some(block) = blocks.pop() else {
            break;
        };
        match block {
            Block::End(markup) => page.raw(markup),
            Block::Loop(proc, number, cost, above) => {
                if let Some(walk) = walks.walk(proc) {
                    add_loop_block(report, page, walk, number, cost, above)?;
                }
            }
            Block::Proc(proc, calls, cost, above, share, depth) => {
                add_proc_block(report, page, proc, calls, cost, above, depth)?;
                blocks.push(Block::End("</li>"))?;
                if let Some(walk) = walks.walk(proc) {
                    add_inner(report, page, walk, share, depth, &mut blocks)?;
                }
            }
        }
    }
    page.raw("</ul></div>\n");
    Ok(())
}

/// Adds the block of a procedure; its item stays open.
fn add_proc_block(
    report: &Reported,
    page: &mut Page,
    proc: ProcId,
    calls: u64,
    cost: u64,
    above: u64,
    depth: u8,
) -> Result<(), AllocError> {
    let alloc = report.alloc;
    let class = match depth % 4 {
        0 => "f0",
        1 => "f1",
        2 => "f2",
        _ => "f3",
    };
    let name = report.name_of(proc)?;
    let label = if calls > 1 {
        let each = grouped(alloc, cost.checked_div(calls).unwrap_or(0))?;
        format!(in alloc; "{name} {calls} × {each}")?
    } else {
        let whole = grouped(alloc, cost)?;
        format!(in alloc; "{name} {whole}")?
    };
    let wide = width_text(alloc, cost, above)?;
    page.open("li", &[with("class", class), with("style", wide.as_str())]);
    add_block_label(report, page, label.as_str(), cost)
}

/// Adds the label of a block.
fn add_block_label(
    report: &Reported,
    page: &mut Page,
    label: &str,
    cost: u64,
) -> Result<(), AllocError> {
    let whole = grouped(report.alloc, cost)?;
    let title = format!(in report.alloc; "{label}: {whole} T-states")?;
    page.open("span", &[with("title", title.as_str())]);
    page.text(label);
    page.close("span");
    Ok(())
}

/// Adds the block of a loop.
fn add_loop_block(
    report: &Reported,
    page: &mut Page,
    walk: &ProcWalk,
    number: usize,
    cost: u64,
    above: u64,
) -> Result<(), AllocError> {
    let alloc = report.alloc;
    let Some(found) = walk.loops.get(number) else {
        return Ok(());
    };
    let first = found.addresses.first().copied().unwrap_or(0);
    let label = match found.turns {
        Some(turns) => { format!(in alloc; "loop {first:04X} {} × {}", turns.count, turns.cost)? }
        None => format!(in alloc; "loop {first:04X}")?,
    };
    let wide = width_text(alloc, cost, above)?;
    page.open("li", &[with("class", "lo"), with("style", wide.as_str())]);
    add_block_label(report, page, label.as_str(), cost)?;
    page.raw("</li>");
    Ok(())
}

/// Adds the blocks in the block of a procedure, the widest first, to those that come next.
fn add_inner(
    report: &Reported,
    page: &mut Page,
    walk: &ProcWalk,
    share: u64,
    depth: u8,
    blocks: &mut Vec<Block>,
) -> Result<(), AllocError> {
    let sum = u64::from(walk.sum).max(1);
    let inner = inner_of(report, walk, sum, depth)?;
    let has_room = inner
        .iter()
        .any(|(cost, _)| ratio(*cost, sum, share) > LEAST);
    if !has_room || depth == u8::MAX {
        return Ok(());
    }
    page.raw("<ul>");
    blocks.push(Block::End("</ul>"))?;
    add_shares(inner.as_slice(), sum, share, blocks)
}

/// The calls and loops of a procedure with their T-states, the cheapest first.
fn inner_of(
    report: &Reported,
    walk: &ProcWalk,
    sum: u64,
    depth: u8,
) -> Result<Vec<(u64, Block)>, AllocError> {
    let mut inner: Vec<(u64, Block)> = Vec::new(report.alloc);
    for item in &walk.items {
        match item.kind {
            ItemKind::Accepted | ItemKind::Run(_, _) | ItemKind::Whole(_) => {}
            ItemKind::Call(callee, _, time) => {
                add_call(&mut inner, callee, u64::from(time), sum, depth)?;
            }
            ItemKind::Loop(number) => {
                let cost = u64::from(item.cost);
                inner.push((cost, Block::Loop(walk.proc, number, cost, sum)))?;
            }
        }
    }
    inner.sort_by_key(|(cost, _)| *cost)?;
    Ok(inner)
}

/// Pushes the blocks that are wide enough to show. The dearest comes last, so it is the first from the stack.
fn add_shares(
    inner: &[(u64, Block)],
    sum: u64,
    share: u64,
    blocks: &mut Vec<Block>,
) -> Result<(), AllocError> {
    for (cost, block) in inner {
        let wide = ratio(*cost, sum, share);
        if wide > LEAST {
            blocks.push(with_share(*block, wide))?;
        }
    }
    Ok(())
}

/// A block with its millionths of the whole.
fn with_share(block: Block, share: u64) -> Block {
    match block {
        Block::Proc(proc, calls, cost, above, _, depth) => {
            Block::Proc(proc, calls, cost, above, share, depth)
        }
        Block::Loop(_, _, _, _) | Block::End(_) => block,
    }
}

/// Adds a call to those of the same procedure.
fn add_call(
    inner: &mut Vec<(u64, Block)>,
    callee: ProcId,
    time: u64,
    sum: u64,
    depth: u8,
) -> Result<(), AllocError> {
    for (cost, block) in inner.iter_mut() {
        if let Block::Proc(proc, calls, whole, above, share, deep) = *block {
            if proc == callee {
                let whole = whole.saturating_add(time);
                *cost = whole;
                *block = Block::Proc(proc, calls.saturating_add(1), whole, above, share, deep);
                return Ok(());
            }
        }
    }
    let block = Block::Proc(callee, 1, time, sum, 0, depth.saturating_add(1));
    inner.push((time, block))?;
    Ok(())
}
