// The procedures, and which calls which.

use call_graph::ProcId;
use certificate::{Proc, ProcKind};
use listing::pair_name;
use report_parts::{Page, Reported};
use std::alloc::AllocError;
use survey::PAIRS;

/// A step through the tree of calls.
#[derive(Clone, Copy)]
enum Branch {
    /// A procedure, and whether it is on the deepest chain.
    Proc(ProcId, bool),
    /// The end of an item, or of a list.
    End(&'static str),
}

/// The most procedures of a tree; each calls a procedure at most once there.
const MOST: u32 = 4_000_000;

/// Adds the procedures.
pub fn add_procedures(report: &Reported, page: &mut Page) -> Result<(), AllocError> {
    page.raw(
        "<section id=\"procs\" aria-labelledby=\"h-procs\"><h2 id=\"h-procs\">Procedures and calls</h2>\n\
         <table><caption>Depth is the most stack in bytes, with its return address and all it calls. Time is the \
         most T-states, with all it calls; – where none is claimed.</caption>\n<thead><tr>\
         <th scope=\"col\">Procedure</th><th scope=\"col\">Entry</th><th scope=\"col\">Runs in</th>\
         <th scope=\"col\" class=\"r\">Depth</th><th scope=\"col\" class=\"r\">Time</th>\
         <th scope=\"col\" class=\"r hide\">Callers</th><th scope=\"col\" class=\"hide\">Keeps</th></tr></thead>\n\
         <tbody>",
    );
    let mut number: ProcId = 0;
    for proc in report.view.accepted().certificate().procs() {
        add_procedure(report, page, number, proc)?;
        number = number.saturating_add(1);
    }
    page.raw(
        "</tbody></table>\n<h3>Who calls whom</h3>\n<p>Stack depth and time with all that is called. The deepest \
         chain of each tree is bold and marked; a procedure’s calls are shown where it comes first.</p>\n",
    );
    add_tree(report, page)?;
    add_chain(report, page, 0)?;
    if let Some((nmi, _)) = report.nmi {
        add_chain(report, page, nmi)?;
    }
    page.raw("</section>\n");
    Ok(())
}

/// Adds a row of the table.
fn add_procedure(
    report: &Reported,
    page: &mut Page,
    number: ProcId,
    proc: &Proc,
) -> Result<(), AllocError> {
    page.raw("<tr><th scope=\"row\">");
    report.add_proc(page, number)?;
    page.raw("</th><td class=\"c\">");
    page.address(proc.entry);
    page.raw("</td><td class=\"nw\">");
    report.add_side(page, report.sides.of_proc(number))?;
    page.raw("</td><td class=\"r\">");
    page.number(u64::from(proc.depth));
    page.raw("</td><td class=\"r\">");
    match proc.time {
        Some(time) => page.number(u64::from(time)),
        None => page.raw("–"),
    }
    page.raw("</td><td class=\"r hide\">");
    if proc.kind == ProcKind::Sub {
        page.number(report.view.survey().calls().of(number).len() as u64);
    }
    page.raw("</td><td class=\"hide c\">");
    if proc.kind != ProcKind::Main {
        add_keeps(report, page, number);
    }
    page.raw("</td></tr>\n");
    Ok(())
}

/// Adds the pairs that a procedure keeps.
pub fn add_keeps(report: &Reported, page: &mut Page, proc: ProcId) {
    let Some(kept) = report.view.survey().kept(proc) else {
        page.raw("never returns");
        return;
    };
    if PAIRS.iter().all(|pair| kept.contains(*pair)) {
        page.raw("all");
        return;
    }
    let mut is_none = true;
    for pair in PAIRS {
        if kept.contains(pair) {
            if !is_none {
                page.raw(" ");
            }
            is_none = false;
            page.text(pair_name(pair));
        }
    }
    if is_none {
        page.raw("nothing");
    }
}

/// Adds the tree of calls.
fn add_tree(report: &Reported, page: &mut Page) -> Result<(), AllocError> {
    let certificate = report.view.accepted().certificate();
    let mut seen = vec![in report.alloc; false; certificate.procs().len()]?;
    let mut branches = Vec::new(report.alloc);
    if let Some((nmi, _)) = report.nmi {
        branches.push(Branch::Proc(nmi, true))?;
    }
    branches.push(Branch::Proc(0, true))?;
    page.raw("<ul class=\"tree\">");
    for _ in 0..MOST {
        let Some(branch) = branches.pop() else {
            break;
        };
        match branch {
            Branch::End(markup) => page.raw(markup),
            Branch::Proc(proc, is_deep) => {
                let is_first = seen.get(usize::from(proc)).copied() == Some(false);
                if let Some(mark) = seen.get_mut(usize::from(proc)) {
                    *mark = true;
                }
                add_branch(report, page, proc, is_deep, is_first, &mut branches)?;
            }
        }
    }
    page.raw("</ul>\n");
    Ok(())
}

/// Adds a procedure to the tree, and the procedures that it calls to those that come next.
fn add_branch(
    report: &Reported,
    page: &mut Page,
    proc: ProcId,
    is_deep: bool,
    is_first: bool,
    branches: &mut Vec<Branch>,
) -> Result<(), AllocError> {
    let callees = callees_of(report, proc)?;
    page.raw(if is_deep {
        "<li class=\"deep\"><span>"
    } else {
        "<li><span>"
    });
    report.add_proc(page, proc)?;
    page.raw(" <span class=\"nums\">");
    if let Some(procedure) = report.view.accepted().certificate().proc(proc) {
        page.count(u64::from(procedure.depth), "byte");
        if let Some(time) = procedure.time {
            page.raw(", ");
            page.number(u64::from(time));
            page.raw(" T");
        }
    }
    page.raw("</span>");
    if is_deep {
        page.raw(" <span class=\"tag\">deepest</span>");
    }
    if !is_first && !callees.is_empty() {
        page.raw(" <span class=\"nums\">– see above</span>");
    }
    page.raw("</span>");
    branches.push(Branch::End("</li>\n"))?;
    if is_first && !callees.is_empty() {
        let chain = report.chains.from(report.alloc, proc)?;
        let next = match chain.first() {
            Some(link) => link.callee,
            None => None,
        };
        page.raw("<ul>");
        branches.push(Branch::End("</ul>"))?;
        for callee in callees.iter().rev() {
            branches.push(Branch::Proc(*callee, is_deep && next == Some(*callee)))?;
        }
    }
    Ok(())
}

/// The procedures that a procedure calls, rising.
fn callees_of(report: &Reported, caller: ProcId) -> Result<Vec<ProcId>, AllocError> {
    let mut callees = Vec::new(report.alloc);
    for (from, to) in &report.calls {
        if *from == caller {
            callees.push(*to)?;
        }
    }
    Ok(callees)
}

/// Adds the deepest chain from a procedure, and its sum.
fn add_chain(report: &Reported, page: &mut Page, proc: ProcId) -> Result<(), AllocError> {
    page.raw("<p class=\"mut\">Deepest from ");
    page.made(report.name_of(proc));
    page.raw(": ");
    let mut sum = 0u64;
    let mut is_first = true;
    let chain = report.chains.from(report.alloc, proc)?;
    for link in &chain {
        if !is_first {
            page.raw(" + ");
        }
        is_first = false;
        sum = sum.saturating_add(u64::from(link.own));
        page.number(u64::from(link.own));
        page.raw(" in ");
        page.made(report.name_of(link.proc));
        page.raw(" at ");
        report.add_address(page, link.address)?;
    }
    page.raw(" = ");
    page.count(sum, "byte");
    page.raw(".</p>\n");
    Ok(())
}
