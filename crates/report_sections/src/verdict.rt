// The verdict, and what it means.

use certificate::{BoardMap, Version};
use report_parts::{
    Page, Reported, bytes_digest, certificate_digest, digits_of, grouped, ratio, share_text, with,
};
use std::alloc::AllocError;

/// The T-states of a frame, and of one of its lines.
const FRAME: u64 = 50_688;

const LINE: u64 = 192;

/// A bar: how much of a whole its parts take.
#[derive(Clone, Copy)]
struct Bar<'a> {
    label: &'a str,
    text: &'a str,
    /// The amount, the class and the name of each part.
    parts: &'a [(u64, &'static str, &'static str)],
    whole: u64,
    mark: Option<u64>,
}

/// Adds the verdict.
pub fn add_verdict(report: &Reported, page: &mut Page) -> Result<(), AllocError> {
    let certificate = report.view.accepted().certificate();
    page.raw("<section id=\"sum\" aria-labelledby=\"h-sum\"><h1 id=\"h-sum\">");
    page.text(report.names.rom);
    page.raw("</h1>\n<p><span class=\"v\">✓ accepted</span> for the ");
    page.raw(match certificate.board() {
        BoardMap::Galaxian => "Galaxian",
        BoardMap::Raised => "raised",
    });
    page.raw(" map, certificate version ");
    page.raw(match certificate.version() {
        Version::One => "1",
        Version::Two => "2",
        Version::Three => "3",
    });
    page.raw(".</p>\n<dl>");
    add_files(report, page)?;
    page.raw("</dl>\n<div class=\"bars\">");
    add_bars(report, page)?;
    page.raw("</div>\n");
    add_bars_note(report, page);
    page.raw("</section>\n");
    Ok(())
}

/// Adds what the files are.
fn add_files(report: &Reported, page: &mut Page) -> Result<(), AllocError> {
    let alloc = report.alloc;
    let certificate = report.view.accepted().certificate();
    let rom = report.view.accepted().rom();
    page.raw("<dt>ROM</dt><dd>");
    page.count(u64::from(rom.len()), "byte");
    page.raw(", 0000–");
    page.address(rom.len().saturating_sub(1));
    page.raw("</dd>\n<dt>its SHA-256</dt><dd><code>");
    page.made(digits_of(alloc, &bytes_digest(rom.bytes_from(0))));
    page.raw("</code></dd>\n<dt>Certificate</dt><dd>");
    page.text(report.names.cert);
    page.raw(", ");
    page.count(u64::from(certificate.row_count()), "row");
    page.raw(", SHA-256 <code>");
    let digits = digits_of(alloc, &certificate_digest(certificate))?;
    page.text(digits.as_str().get(..16).unwrap_or(""));
    page.raw("…</code></dd>\n<dt>Code</dt><dd>");
    page.count(u64::from(report.instrs), "instruction");
    page.raw(" in ");
    page.count(certificate.procs().len() as u64, "procedure");
    page.raw("</dd>");
    if let Some(file) = report.names.symbols {
        page.raw("\n<dt>Labels</dt><dd>");
        page.number(report.view.symbols().names().len() as u64);
        page.raw(" from ");
        page.text(file);
        let others = report.view.symbols().other_lines().len() as u64;
        if others > 0 {
            page.raw(", ");
            page.count(others, "line");
            page.raw(" not understood");
        }
        page.raw("</dd>");
    }
    Ok(())
}

/// The bytes of stack that main uses, and those that the NMI routine uses over it.
fn depths(report: &Reported) -> (u64, u64) {
    let certificate = report.view.accepted().certificate();
    let main = match certificate.proc(0) {
        Some(proc) => u64::from(proc.depth),
        None => 0,
    };
    let nmi = match report.nmi {
        Some((_, proc)) => u64::from(proc.depth),
        None => 0,
    };
    (main, nmi)
}

/// Adds the bars of the stack and of time.
fn add_bars(report: &Reported, page: &mut Page) -> Result<(), AllocError> {
    let alloc = report.alloc;
    let region = report.view.accepted().certificate().region();
    let (main, nmi) = depths(report);
    let size = u64::from(region.top.saturating_sub(region.low));
    let top = region.top.wrapping_sub(1);
    let used = main.saturating_add(nmi);
    let label = format!(in alloc; "Stack {:04X}–{top:04X}", region.low)?;
    let text = format!(in alloc; "{used} of {size} bytes used at most")?;
    let parts = [(main, "m", "main code"), (nmi, "n", "NMI routine on top")];
    let shown = if nmi > 0 { 2 } else { 1 };
    add_bar(
        page,
        &Bar {
            label: label.as_str(),
            text: text.as_str(),
            parts: &parts[..shown],
            whole: size,
            mark: None,
        },
    )?;
    add_time_bars(report, page)
}

fn add_time_bars(report: &Reported, page: &mut Page) -> Result<(), AllocError> {
    let alloc = report.alloc;
    let Some((_, proc)) = report.nmi else {
        return Ok(());
    };
    let budget = u64::from(report.view.accepted().certificate().budget().unwrap_or(0));
    let time = u64::from(proc.time.unwrap_or(0));
    let parts = [(time, "n", "NMI routine")];
    let (shown, share) = (grouped(alloc, time)?, share_text(alloc, time, budget)?);
    let whole = grouped(alloc, budget)?;
    let text = format!(in alloc; "{shown} of {whole} T-states ({share})")?;
    add_bar(
        page,
        &Bar {
            label: "NMI routine, of your budget",
            text: text.as_str(),
            parts: &parts,
            whole: budget,
            mark: None,
        },
    )?;
    let lines = time.div_ceil(LINE);
    let share = share_text(alloc, time, FRAME)?;
    let text = format!(in alloc; "{lines} of 264 lines ({share})")?;
    add_bar(
        page,
        &Bar {
            label: "NMI routine, of a frame",
            text: text.as_str(),
            parts: &parts,
            whole: FRAME,
            mark: Some(budget),
        },
    )
}

/// Adds what the colours of the bars are.
fn add_bars_note(report: &Reported, page: &mut Page) {
    let (main, nmi) = depths(report);
    if report.nmi.is_none() {
        page.raw(
            "<p>There is no NMI routine: the certificate claims no time, and shows that the ROM never enables \
             the NMI.</p>\n",
        );
        return;
    }
    page.raw("<p class=\"mut\"><span class=\"sw m\">Main code</span>: ");
    page.count(main, "byte");
    page.raw(". <span class=\"sw n\">NMI routine</span> on top of it: ");
    page.count(nmi, "byte");
    page.raw(". A frame has ");
    page.number(FRAME);
    page.raw(" T-states; the mark in the last bar is the budget.</p>\n");
}

/// Adds what the verdict means.
pub fn add_meaning(report: &Reported, page: &mut Page) {
    let region = report.view.accepted().certificate().region();
    page.raw(
        "<section id=\"mean\" aria-labelledby=\"h-mean\"><h2 id=\"h-mean\">What it means</h2>\n<ul class=\"mean\">\
         <li><b>Whatever happens, the processor stays in your code.</b> From any power-on state, with any inputs, \
         it executes only the instructions listed below, and only those the Z80 manual documents.</li>\n\
         <li><b>No store goes astray.</b> Stores reach RAM, latches and the sound pitch only: never the ROM, never \
         an unmapped address, and never the stack while something is on it.</li>\n\
         <li><b>The stack stays in its region</b> ",
    );
    page.address(region.low);
    page.raw("–");
    page.address(region.top.wrapping_sub(1));
    page.raw(", also if an NMI comes at the worst moment.</li>\n");
    match report.nmi {
        Some((_, proc)) => {
            page.raw("<li><b>The NMI routine ends within ");
            page.number(u64::from(proc.time.unwrap_or(0)));
            page.raw(
                " T-states each time</b>, and hands back all registers as it found them. Times are upper bounds; \
                 the dearest way may never be taken.</li>\n",
            );
        }
        None => page.raw("<li><b>No time is promised</b>, as there is no NMI routine.</li>\n"),
    }
    page.raw(
        "<li><b>It doesn’t say that the game is right</b>, fun, or drawn well, that main code ever finishes \
         anything, nor that a real board behaves as the model of docs/BOARD.md. “Never reached” means reached by \
         nothing; “reached” means only that the proof allows for it.</li></ul></section>\n",
    );
}

/// Adds a bar.
fn add_bar(page: &mut Page, bar: &Bar) -> Result<(), AllocError> {
    let alloc = page.alloc();
    let mut words = format!(in alloc; "{}: ", bar.label)?;
    for (amount, _, name) in bar.parts {
        let amount = grouped(alloc, *amount)?;
        words.push_str(format!(in alloc; "{name} {amount}; ")?.as_str())?;
    }
    words.push_str("of ")?;
    words.push_str(grouped(alloc, bar.whole)?.as_str())?;
    page.raw("<div class=\"bar\"><p><span>");
    page.text(bar.label);
    page.raw("</span> <b>");
    page.text(bar.text);
    page.raw("</b></p>\n");
    page.open(
        "svg",
        &[
            with("role", "img"),
            with("aria-label", words.as_str()),
            with("viewBox", "0 0 1000 20"),
            with("preserveAspectRatio", "none"),
        ],
    );
    page.raw("<rect class=\"z\" width=\"1000\" height=\"20\"/>");
    let mut left = 0u64;
    for (amount, class, _) in bar.parts {
        let wide = ratio(*amount, bar.whole, 1000);
        add_rect(page, class, left, wide.saturating_sub(1).max(1))?;
        left = left.saturating_add(wide);
    }
    if let Some(mark) = bar.mark {
        add_rect(page, "k", ratio(mark, bar.whole, 1000).min(998), 2)?;
    }
    page.raw("</svg></div>\n");
    Ok(())
}

fn add_rect(page: &mut Page, class: &str, left: u64, wide: u64) -> Result<(), AllocError> {
    let alloc = page.alloc();
    let left = format!(in alloc; "{left}")?;
    let wide = format!(in alloc; "{wide}")?;
    open_rect(page, class, left.as_str(), wide.as_str());
    page.close("rect");
    Ok(())
}

/// Adds the opening tag of a rectangle.
fn open_rect<'t>(page: &mut Page, class: &'t str, left: &'t str, wide: &'t str) {
    page.open(
        "rect",
        &[
            with("class", class),
            with("x", left),
            with("width", wide),
            with("height", "20"),
        ],
    );
}
