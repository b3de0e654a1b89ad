// The head of the page, its contents, and its end.

use crate::report::Report;
use report_parts::{Page, STYLE, with};
use std::alloc::AllocError;

/// The parts of the page: their ids and headings.
const SECTIONS: [(&str, &str); 9] = [
    ("#sum", "Verdict"),
    ("#mean", "What it means"),
    ("#time", "Where the NMI’s time goes"),
    ("#procs", "Procedures and calls"),
    ("#rom", "The ROM’s bytes"),
    ("#ram", "RAM: who writes what"),
    ("#stores", "Every store"),
    ("#nmien", "NMI enable and kept cells"),
    ("#list", "Listing"),
];

impl Report<'_> {
    /// Adds the head of the page and its contents.
    pub(crate) fn add_head(&self, page: &mut Page) -> Result<(), AllocError> {
        page.raw(
            "<!DOCTYPE html>\n<html lang=\"en\"><head><meta charset=\"utf-8\">\n\
             <meta name=\"viewport\" content=\"width=device-width,initial-scale=1\">\n\
             <meta name=\"generator\" content=\"galcert report\">\n<title>",
        );
        page.text(self.shown.names.rom);
        page.raw(" – galcert report</title>\n<style>\n");
        page.raw(STYLE);
        page.raw(
            "</style></head>\n<body><nav aria-label=\"Contents\"><a class=\"skip\" href=\"#main\">Skip to the report\
             </a>\n<details open=\"open\"><summary>",
        );
        page.text(self.shown.names.rom);
        page.raw("</summary>\n<ol>");
        for (target, words) in SECTIONS {
            if target == "#time" && self.shown.nmi.is_none() {
                continue;
            }
            page.raw("<li>");
            page.open("a", &[with("href", target)]);
            page.text(words);
            page.close("a");
            if target == "#list" && self.shown.is_listed {
                self.add_contents(page)?;
            }
            page.raw("</li>\n");
        }
        page.raw("</ol></details></nav>\n<main id=\"main\">\n");
        Ok(())
    }

    /// Adds the procedures, which lead to the listing.
    fn add_contents(&self, page: &mut Page) -> Result<(), AllocError> {
        let procs = self.shown.view.accepted().certificate().procs();
        page.raw("<details class=\"pr\"><summary>");
        page.count(procs.len() as u64, "procedure");
        page.raw("</summary><ul>");
        let mut number = 0;
        for proc in procs {
            page.raw("<li>");
            self.shown.add_proc(page, number)?;
            page.raw(" <span class=\"c\">");
            page.address(proc.entry);
            page.raw("</span></li>\n");
            number = number.saturating_add(1);
        }
        page.raw("</ul></details>");
        Ok(())
    }

    /// Adds the end of the page.
    pub(crate) fn add_end(&self, page: &mut Page) {
        page.raw("</main></body></html>\n");
    }
}
