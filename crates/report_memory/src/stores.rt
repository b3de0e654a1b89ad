// Every store, by procedures.

use call_graph::ProcId;
use listing::procs_of;
use program_facts::Access;
use report_parts::{Page, Reported};
use std::alloc::AllocError;

/// Adds every instruction that stores.
pub fn add_stores(report: &Reported, page: &mut Page) -> Result<(), AllocError> {
    page.raw(
        "<section id=\"stores\" aria-labelledby=\"h-stores\"><h2 id=\"h-stores\">Every store</h2>\n<p>",
    );
    let count = report.accesses.stores.len() as u64;
    page.number(count);
    page.raw(if count == 1 {
        " instruction stores"
    } else {
        " instructions store"
    });
    page.raw(
        ": where it may store, and which bytes. Addresses are the whole range that the proof allows for.</p>\n",
    );
    if count > 0 {
        add_store_table(report, page)?;
    }
    page.raw("</section>\n");
    Ok(())
}

fn add_store_table(report: &Reported, page: &mut Page) -> Result<(), AllocError> {
    page.raw(
        "<table><caption>Stores by procedures</caption><thead><tr><th scope=\"col\">At</th>\
         <th scope=\"col\">Instruction</th><th scope=\"col\">Stores to</th><th scope=\"col\">Region</th>\
         <th scope=\"col\" class=\"hide\">Byte</th></tr></thead>\n",
    );
    let mut groups: Vec<StoreGroup> = Vec::new(report.alloc);
    let mut number = 0usize;
    for store in &report.accesses.stores {
        let rows = report.view.survey().rows().at(store.address);
        let procs = procs_of(report.alloc, rows)?;
        add_to_group(report.alloc, &mut groups, procs, number)?;
        number = number.saturating_add(1);
    }
    for group in &groups {
        page.raw("<tbody><tr><th scope=\"rowgroup\" colspan=\"5\" class=\"mut\">in ");
        report.add_procs(page, group.procs.as_slice(), 6)?;
        page.raw("</th></tr>\n");
        for number in &group.stores {
            if let Some(store) = report.accesses.stores.get(*number) {
                add_store(report, page, store)?;
            }
        }
        page.raw("</tbody>\n");
    }
    page.raw("</table>\n");
    Ok(())
}

fn add_store(report: &Reported, page: &mut Page, store: &Access) -> Result<(), AllocError> {
    page.raw("<tr><th scope=\"row\" class=\"c\">");
    report.add_address(page, store.address)?;
    page.raw("</th><td class=\"c\">");
    report.add_instr(page, store.address)?;
    page.raw("</td><td class=\"c\">");
    report.add_ranges(page, store.ranges.as_slice());
    if let [range] = store.ranges.as_slice() {
        if range.low() == range.high() {
            let label = report.label_of(range.low())?;
            if !label.is_empty() {
                page.raw(" <span class=\"cm\">");
                page.text(label.as_str());
                page.raw("</span>");
            }
        }
    }
    page.raw("</td><td>");
    report.add_regions(page, store.ranges.as_slice())?;
    page.raw("</td><td class=\"c hide\">");
    if store.byte.is_full() {
        page.raw("any");
    } else {
        page.made(report.byte_range(store.byte));
    }
    page.raw("</td></tr>\n");
    Ok(())
}

/// The stores of the same procedures, by their places.
#[derive(Drop)]
struct StoreGroup {
    procs: Vec<ProcId>,
    stores: Vec<usize>,
}

/// Adds a store to those of the same procedures.
fn add_to_group(
    alloc: std::alloc::Global,
    groups: &mut Vec<StoreGroup>,
    procs: Vec<ProcId>,
    number: usize,
) -> Result<(), AllocError> {
    for group in groups.iter_mut() {
        if group.procs.as_slice() == procs.as_slice() {
            group.stores.push(number)?;
            return Ok(());
        }
    }
    let mut stores = Vec::new(alloc);
    stores.push(number)?;
    groups.push(StoreGroup { procs, stores })?;
    Ok(())
}
