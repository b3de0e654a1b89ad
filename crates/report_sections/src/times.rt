// Where the time of the NMI routine goes.

use crate::trees::add_flame;
use certificate::Proc;
use folded_walks::{Item, ItemKind, ProcWalk, Segment, Total, Walks, address_text, item_text};
use report_parts::{Page, Reported, grouped, ratio, with};
use std::alloc::AllocError;

/// Adds where the time of the NMI routine goes, if there is one.
pub fn add_times(report: &Reported, page: &mut Page) -> Result<(), AllocError> {
    let (Some((_, proc)), Some(walks)) = (report.nmi, &report.walks) else {
        return Ok(());
    };
    let Some(walk) = walks.walk(walks.root()) else {
        return Ok(());
    };
    let time = proc.time.unwrap_or(0);
    page.raw(
        "<section id=\"time\" aria-labelledby=\"h-time\"><h2 id=\"h-time\">Where the NMI’s time goes</h2>\n\
         <p>The dearest way through the NMI routine that the proof allows for: ",
    );
    page.number(u64::from(time));
    page.raw(" T-states");
    let left = time.saturating_sub(walk.sum);
    if left > 0 {
        page.raw(", of which ");
        page.number(u64::from(left));
        page.raw(" are not accounted for below");
    }
    page.raw(
        ". Each block is as wide as its share; what it calls stands under it. Dashed blocks are loops.</p>\n",
    );
    add_flame(report, page, walks, walk)?;
    add_totals(report, page, walks, u64::from(time))?;
    add_steps(report, page, walks)?;
    page.raw("</section>\n");
    Ok(())
}

/// Adds the T-states by procedure.
fn add_totals(
    report: &Reported,
    page: &mut Page,
    walks: &Walks,
    time: u64,
) -> Result<(), AllocError> {
    page.raw(
        "<div class=\"scroll\"><table class=\"fit\"><caption>The same, folded by procedure: T-states in its own \
         instructions and loops, without what it calls</caption>\n<thead><tr><th scope=\"col\">Procedure</th>\
         <th scope=\"col\" class=\"r\">Times run</th><th scope=\"col\" class=\"r\">Own</th>\
         <th scope=\"col\" class=\"r tiny\">In loops</th><th scope=\"col\" class=\"r hide\">Each, with calls</th>\
         <th scope=\"col\" class=\"r\">Share</th></tr></thead>\n<tbody>",
    );
    let most = match walks.totals().first() {
        Some(total) => total.own.saturating_add(total.loops).max(1),
        None => 1,
    };
    for total in walks.totals() {
        if let Some(proc) = report.view.accepted().certificate().proc(total.proc) {
            add_total(report, page, total, &proc, time, most)?;
        }
    }
    page.raw("</tbody></table></div>\n");
    Ok(())
}

fn add_total(
    report: &Reported,
    page: &mut Page,
    total: &Total,
    proc: &Proc,
    time: u64,
    most: u64,
) -> Result<(), AllocError> {
    let sum = total.own.saturating_add(total.loops);
    page.raw("<tr><th scope=\"row\">");
    report.add_proc(page, total.proc)?;
    page.raw("</th><td class=\"r\">");
    page.number(total.times);
    page.raw("</td><td class=\"r\">");
    page.number(total.own);
    page.raw("</td><td class=\"r tiny\">");
    if total.loops > 0 {
        page.number(total.loops);
    } else {
        page.raw("–");
    }
    page.raw("</td><td class=\"r hide\">");
    page.number(u64::from(proc.time.unwrap_or(0)));
    page.raw("</td><td class=\"r share\">");
    page.share(sum, time);
    page.raw("<svg aria-hidden=\"true\" viewBox=\"0 0 100 10\" preserveAspectRatio=\"none\">");
    let wide = format!(in report.alloc; "{}", ratio(sum, most, 100))?;
    page.open(
        "rect",
        &[
            with("class", "n"),
            with("width", wide.as_str()),
            with("height", "10"),
        ],
    );
    page.raw("</rect></svg></td></tr>\n");
    Ok(())
}

/// Adds the items of each procedure, callers first.
fn add_steps(report: &Reported, page: &mut Page, walks: &Walks) -> Result<(), AllocError> {
    page.raw("<h3>Step by step</h3>\n");
    for proc in walks.order() {
        let Some(walk) = walks.walk(*proc) else {
            continue;
        };
        let Some(procedure) = report.view.accepted().certificate().proc(*proc) else {
            continue;
        };
        page.raw(if *proc == walks.root() {
            "<details class=\"box\" open=\"open\"><summary>"
        } else {
            "<details class=\"box\"><summary>"
        });
        let name = report.view.proc_name(&procedure)?;
        page.text(name.as_str());
        page.raw(" <span class=\"mut\">");
        page.address(procedure.entry);
        page.raw(", ");
        page.number(u64::from(procedure.time.unwrap_or(0)));
        page.raw(" T-states</span></summary>\n<table class=\"walk fit\"><caption>The items of ");
        page.text(name.as_str());
        page.raw(
            "</caption><thead><tr><th scope=\"col\" class=\"r\">T-states</th><th scope=\"col\">Where</th>\
             <th scope=\"col\">What</th></tr></thead>\n<tbody>",
        );
        for segment in &walk.segments {
            add_segment(report, page, walk, segment)?;
        }
        let left = procedure.time.unwrap_or(0).saturating_sub(walk.sum);
        if left > 0 {
            page.raw("<tr><td class=\"r\">");
            page.number(u64::from(left));
            page.raw("</td><td></td><td>not accounted for</td></tr>\n");
        }
        page.raw("</tbody></table></details>\n");
    }
    Ok(())
}

/// Adds items that come once, or several times.
fn add_segment(
    report: &Reported,
    page: &mut Page,
    walk: &ProcWalk,
    segment: &Segment,
) -> Result<(), AllocError> {
    let is_folded = segment.times > 1;
    if is_folded {
        page.raw("<tr><td class=\"r\">");
        page.number(segment.cost);
        page.raw("</td><td></td><td>");
        page.number(segment.times as u64);
        page.raw(" times");
        if let Some(each) = segment.each() {
            page.raw(" ");
            page.number(each);
        }
        page.raw(":</td></tr>\n");
    }
    for item in segment.items(&walk.items) {
        page.raw("<tr><td class=\"r\">");
        if !is_folded {
            page.number(u64::from(item.cost));
        }
        page.raw("</td><td class=\"c\">");
        if is_folded {
            page.raw("<span class=\"mut\">· </span>");
        }
        let place = address_text(report.alloc, item, walk)?;
        report.add_link(page, item.address, place.as_str(), None)?;
        page.raw("</td><td>");
        add_item(report, page, walk, item)?;
        page.raw("</td></tr>\n");
    }
    Ok(())
}

/// Adds what an item is.
fn add_item(
    report: &Reported,
    page: &mut Page,
    walk: &ProcWalk,
    item: &Item,
) -> Result<(), AllocError> {
    match item.kind {
        ItemKind::Call(callee, own, time) => {
            page.raw("CALL ");
            report.add_proc(page, callee)?;
            let (own, time) = (
                grouped(report.alloc, u64::from(own))?,
                grouped(report.alloc, u64::from(time))?,
            );
            page.raw(" <span class=\"mut\">");
            page.made(format!(in report.alloc; "({own} + {time})"));
            page.raw("</span>");
            Ok(())
        }
        ItemKind::Accepted | ItemKind::Run(_, _) | ItemKind::Loop(_) | ItemKind::Whole(_) => {
            page.made(item_text(report.alloc, &report.view, item, walk));
            Ok(())
        }
    }
}
