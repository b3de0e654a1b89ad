// RAM: who stores and reads which byte.

use crate::rom_map::count_of;
use address_map::RamKind;
use program_facts::{Access, RamRun, RamRuns, RamUse, Side};
use report_parts::{Page, Picture, Reported, Spot, add_picture, ram_word, side_words, with};
use std::alloc::AllocError;

/// The classes of bytes with their words, in the order of the key.
const KINDS: [(&str, &str); 6] = [
    ("m", "stored by main"),
    ("n", "stored by the NMI routine"),
    ("b", "stored by both"),
    ("w", "by sweeps only"),
    ("s", "stack"),
    ("z", "never stored"),
];

/// Adds the pictures and the table of RAM.
pub fn add_ram(report: &Reported, page: &mut Page) -> Result<(), AllocError> {
    page.raw(
        "<section id=\"ram\" aria-labelledby=\"h-ram\"><h2 id=\"h-ram\">RAM: who writes what</h2>\n<p>Which part \
         of the program stores where. “Sweeps”, stores over 64 bytes or more such as clearing by LDIR, are listed \
         apart and do not colour the maps. A byte that both main and the NMI routine store is one to look at: the \
         NMI may come between any two instructions.</p>\n<ul class=\"key\">",
    );
    for (class, words) in KINDS {
        report.add_key(page, class, words, None)?;
    }
    page.raw("</ul>\n");
    for (found, runs) in report.rams.iter().zip(report.runs.iter()) {
        add_ram_picture(report, page, found, runs)?;
    }
    add_runs(report, page)?;
    add_sweeps(report, page)?;
    page.raw("</section>\n");
    Ok(())
}

/// The side of instructions.
fn side_of(report: &Reported, users: &[u16]) -> Side {
    let mut side = Side::Neither;
    for user in users {
        side = side.and(report.sides.of_rows(report.view.survey().rows().at(*user)));
    }
    side
}

/// Whether a byte of RAM is in the region of the stack.
fn is_stack(report: &Reported, found: &RamUse, index: usize) -> bool {
    let region = report.view.accepted().certificate().region();
    let low = usize::from(region.low % 0x400);
    let size = usize::from(region.top.saturating_sub(region.low));
    let from_low = index.saturating_add(0x400).saturating_sub(low) % 0x400;
    found.ram == RamKind::Work && from_low < size
}

/// What a byte of RAM is.
fn ram_spot(
    report: &Reported,
    found: &RamUse,
    runs: &RamRuns,
    index: usize,
) -> Result<Spot, AllocError> {
    let alloc = report.alloc;
    let writers = match found.writers.get(index) {
        Some(writers) => writers.as_slice(),
        None => &[],
    };
    let swept = found.swept.get(index).copied() == Some(true);
    let read = found.read.get(index).copied() == Some(true);
    let (class, words) = if is_stack(report, found, index) {
        ("s", "stack")
    } else if !writers.is_empty() {
        side_words(side_of(report, writers))
    } else if swept {
        ("w", "stored by sweeps only")
    } else if read {
        ("z", "read, never stored")
    } else {
        ("z", "")
    };
    let target = match runs.rows.get(index).copied().flatten() {
        Some(first) => {
            let address = found.base.saturating_add(first);
            Some(format!(in alloc; "#r{address:04X}")?)
        }
        None => None,
    };
    Ok(Spot {
        class,
        words: String::from_str(alloc, words)?,
        target,
    })
}

/// Adds the picture of one RAM.
fn add_ram_picture(
    report: &Reported,
    page: &mut Page,
    found: &RamUse,
    runs: &RamRuns,
) -> Result<(), AllocError> {
    let alloc = report.alloc;
    let mut spots = Vec::new(alloc);
    for index in 0..usize::from(found.ram.size()) {
        spots.push(ram_spot(report, found, runs, index)?)?;
    }
    let word = ram_word(found.ram);
    let last = found
        .base
        .saturating_add(found.ram.size().saturating_sub(1));
    let mut label = format!(in alloc; "Map of {word} RAM:")?;
    for (class, words) in KINDS {
        let bytes = count_of(spots.as_slice(), class);
        if bytes > 0 {
            label.push_str(format!(in alloc; " {words} {bytes};")?.as_str())?;
        }
    }
    page.raw("<h3>");
    page.raw(match found.ram {
        RamKind::Work => "Work RAM",
        RamKind::Video => "Video RAM",
        RamKind::Object => "Object RAM",
    });
    page.raw(" <span class=\"mut\">");
    page.made(format!(in alloc; "{:04X}–{last:04X}", found.base));
    page.raw("</span></h3>\n");
    add_picture(
        page,
        &Picture {
            label: label.as_str(),
            base: found.base,
            line: 64,
            spots: spots.as_slice(),
        },
    )
}

/// Adds the table of the bytes that are stored.
fn add_runs(report: &Reported, page: &mut Page) -> Result<(), AllocError> {
    page.raw(
        "<table><caption>Stored bytes, by who stores them; sweeps, and reads over 64 bytes or more, are left out\
         </caption>\n<thead><tr><th scope=\"col\">Address</th><th scope=\"col\">Label</th>\
         <th scope=\"col\" class=\"r\">Bytes</th><th scope=\"col\">Stored in</th><th scope=\"col\">Stored at</th>\
         <th scope=\"col\" class=\"hide\">Read at</th></tr></thead>\n<tbody>",
    );
    let mut is_none = true;
    for (found, runs) in report.rams.iter().zip(report.runs.iter()) {
        for run in &runs.runs {
            is_none = false;
            add_run(report, page, found, run)?;
        }
    }
    if is_none {
        page.raw("<tr><th scope=\"row\">none</th><td colspan=\"5\">nothing is stored</td></tr>");
    }
    page.raw("</tbody></table>\n");
    Ok(())
}

/// Adds a row of that table.
fn add_run(
    report: &Reported,
    page: &mut Page,
    found: &RamUse,
    run: &RamRun,
) -> Result<(), AllocError> {
    let first = found.base.saturating_add(run.first());
    let id = format!(in report.alloc; "r{first:04X}")?;
    page.open("tr", &[with("id", id.as_str())]);
    add_run_ends(report, page, found, run);
    add_run_label(report, page, run, first);
    page.raw("</td><td class=\"r\">");
    page.number(u64::from(run.size()));
    add_run_users(report, page, found, run)
}

/// The addresses of a run, and how often it comes again.
fn add_run_ends(report: &Reported, page: &mut Page, found: &RamUse, run: &RamRun) {
    page.raw("<th scope=\"row\" class=\"c\">");
    page.address(found.base.saturating_add(run.first()));
    if let Some((low, high)) = run.ends.first() {
        if low < high {
            page.raw("–");
            page.address(found.base.saturating_add(*high));
        }
    }
    match run.step {
        Some(step) => add_run_step(report, page, run, step),
        None => {}
    }
}

/// How often a run comes again, and at which step.
fn add_run_step(report: &Reported, page: &mut Page, run: &RamRun, step: u16) {
    page.raw(" <span class=\"cm\">");
    page.made(format!(in report.alloc; "{} times, step {step:02X}", run.ends.len()));
    page.raw("</span>");
}

/// The label of a run, and the range that its cell keeps.
fn add_run_label(report: &Reported, page: &mut Page, run: &RamRun, first: u16) {
    page.raw("</th><td class=\"c\">");
    page.made(report.label_of(first));
    let Some(cell) = run.cell else {
        return;
    };
    page.raw(" <span class=\"tag\">kept ");
    page.made(report.byte_range(cell.range));
    page.raw("</span>");
}

/// Who stores the bytes of a run, and who reads them.
fn add_run_users(
    report: &Reported,
    page: &mut Page,
    found: &RamUse,
    run: &RamRun,
) -> Result<(), AllocError> {
    page.raw("</td><td class=\"nw\">");
    report.add_side(page, side_of(report, run.writers.as_slice()))?;
    page.raw("</td><td class=\"c\">");
    report.add_addresses(page, run.writers.as_slice(), 8)?;
    page.raw("</td><td class=\"c hide\">");
    report.add_addresses(page, readers_of(report, found, run)?.as_slice(), 5)?;
    page.raw("</td></tr>\n");
    Ok(())
}

/// The instructions that read some byte of a run.
fn readers_of(report: &Reported, found: &RamUse, run: &RamRun) -> Result<Vec<u16>, AllocError> {
    let mut all = Vec::new(report.alloc);
    for (first, last) in &run.ends {
        for index in *first..=*last {
            if let Some(readers) = found.readers.get(usize::from(index)) {
                all.extend_from_slice(readers.as_slice())?;
            }
        }
    }
    all.sort()?;
    all.dedup();
    Ok(all)
}

/// Adds the stores over 64 addresses or more.
fn add_sweeps(report: &Reported, page: &mut Page) -> Result<(), AllocError> {
    if !report.accesses.stores.iter().any(Access::is_sweep) {
        return Ok(());
    }
    page.raw(
        "<h3>Sweeps</h3>\n<table class=\"fit\"><caption>Stores over 64 bytes or more</caption><thead><tr>\
         <th scope=\"col\">At</th><th scope=\"col\">Stores</th><th scope=\"col\">In</th>\
         <th scope=\"col\">Region</th></tr></thead>\n<tbody>",
    );
    for store in &report.accesses.stores {
        if store.is_sweep() {
            let rows = report.view.survey().rows().at(store.address);
            page.raw("<tr><th scope=\"row\" class=\"c\">");
            report.add_address(page, store.address)?;
            page.raw("</th><td class=\"c\">");
            report.add_ranges(page, store.ranges.as_slice());
            page.raw("</td><td>");
            let (_, word) = side_words(report.sides.of_rows(rows));
            page.text(word);
            page.raw("</td><td>");
            report.add_regions(page, store.ranges.as_slice())?;
            page.raw("</td></tr>\n");
        }
    }
    page.raw("</tbody></table>\n");
    Ok(())
}
