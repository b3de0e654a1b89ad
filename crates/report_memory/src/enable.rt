// The NMI enable and the kept cells.

use intervals::ByteRange;
use listing::procs_of;
use program_facts::Access;
use report_parts::{Page, Reported};
use std::alloc::AllocError;

/// Adds the stores that may reach the NMI enable, and the kept cells.
pub fn add_enable(report: &Reported, page: &mut Page) -> Result<(), AllocError> {
    page.raw(
        "<section id=\"nmien\" aria-labelledby=\"h-nmien\"><h2 id=\"h-nmien\">NMI enable and kept cells</h2>\n",
    );
    if report
        .accesses
        .stores
        .iter()
        .any(|store| store.enable.is_some())
    {
        add_enable_table(report, page)?;
    } else {
        page.raw("<p>Nothing stores to the NMI enable.</p>\n");
    }
    add_cells(report, page)?;
    page.raw("</section>\n");
    Ok(())
}

fn add_enable_table(report: &Reported, page: &mut Page) -> Result<(), AllocError> {
    page.raw(
        "<table class=\"fit\"><caption>Stores that may reach the NMI enable (bit 0 of the byte: 1 on, 0 off)\
         </caption>\n<thead><tr><th scope=\"col\">At</th><th scope=\"col\">Instruction</th>\
         <th scope=\"col\">In</th><th scope=\"col\">Byte</th><th scope=\"col\">NMI then</th></tr></thead>\n<tbody>",
    );
    for store in &report.accesses.stores {
        if let Some(byte) = store.enable {
            add_enabling(report, page, store, byte)?;
        }
    }
    page.raw("</tbody></table>\n");
    Ok(())
}

fn add_enabling(
    report: &Reported,
    page: &mut Page,
    store: &Access,
    byte: ByteRange,
) -> Result<(), AllocError> {
    let rows = report.view.survey().rows().at(store.address);
    let procs = procs_of(report.alloc, rows)?;
    page.raw("<tr><th scope=\"row\" class=\"c\">");
    report.add_address(page, store.address)?;
    page.raw("</th><td class=\"c\">");
    report.add_instr(page, store.address)?;
    page.raw("</td><td>");
    report.add_procs(page, procs.as_slice(), 6)?;
    page.raw("</td><td class=\"c\">");
    page.made(report.byte_range(byte));
    page.raw("</td><td>");
    page.raw(match byte.value() {
        Some(byte) if byte % 2 == 1 => "on",
        Some(_) => "off",
        None => "on or off",
    });
    page.raw("</td></tr>\n");
    Ok(())
}

/// Adds the kept cells.
fn add_cells(report: &Reported, page: &mut Page) -> Result<(), AllocError> {
    let cells = report.view.accepted().certificate().cells();
    if cells.is_empty() {
        page.raw("<p>The certificate keeps no cells.</p>\n");
        return Ok(());
    }
    page.raw(
        "<table class=\"fit\"><caption>Kept cells: bytes that stay in their range once each has been stored, in \
         this order</caption>\n<thead><tr><th scope=\"col\">Cell</th><th scope=\"col\">Label</th>\
         <th scope=\"col\">Range</th><th scope=\"col\">Stored at</th></tr></thead>\n<tbody>",
    );
    for cell in cells {
        page.raw("<tr><th scope=\"row\" class=\"c\">");
        page.address(cell.at);
        page.raw("</th><td class=\"c\">");
        page.made(report.label_of(cell.at));
        page.raw("</td><td class=\"c\">");
        page.made(report.byte_range(cell.range));
        page.raw("</td><td class=\"c\">");
        if let Some(work) = report.rams.first() {
            if let Some(writers) = work.writers.get(usize::from(cell.at % 0x400)) {
                report.add_addresses(page, writers.as_slice(), 10)?;
            }
        }
        page.raw("</td></tr>\n");
    }
    page.raw("</tbody></table>\n");
    Ok(())
}
