// Pictures of memory: a line of blocks for so many bytes.

use crate::page::{Page, width_text, with};
use std::alloc::AllocError;

/// What a byte of a picture is: its class, the words for it, and the place to which it leads.
#[derive(Drop, PartialEq)]
pub struct Spot {
    pub class: &'static str,
    pub words: String,
    pub target: Option<String>,
}

/// A picture of memory.
#[derive(Clone, Copy)]
pub struct Picture<'a> {
    pub label: &'a str,
    /// The address of the first byte.
    pub base: u16,
    /// The bytes of a line.
    pub line: usize,
    pub spots: &'a [Spot],
}

/// Adds a picture.
pub fn add_picture(page: &mut Page, picture: &Picture) -> Result<(), AllocError> {
    page.raw("<div class=\"map\" tabindex=\"0\" role=\"region\" aria-label=\"Map\">");
    page.open(
        "div",
        &[with("role", "img"), with("aria-label", picture.label)],
    );
    let mut address = picture.base;
    let mut number = 0u32;
    for spots in picture.spots.chunks(picture.line.max(1)) {
        page.raw("<div class=\"line\">");
        if number % 4 == 0 || picture.spots.len() < 512 {
            page.raw("<span class=\"at\">");
            page.address(address);
            page.raw("</span>");
        }
        add_line(page, picture.line, address, spots)?;
        page.raw("</div>\n");
        address = address.wrapping_add((spots.len() % 0x1_0000) as u16);
        number = number.saturating_add(1);
    }
    page.raw("</div></div>\n");
    Ok(())
}

/// Adds the blocks of a line: equal bytes that follow one another are one.
fn add_line(page: &mut Page, line: usize, address: u16, spots: &[Spot]) -> Result<(), AllocError> {
    let mut start = 0usize;
    for at in 0..spots.len() {
        let is_end = match (spots.get(at), spots.get(at.saturating_add(1))) {
            (Some(spot), Some(next)) => spot != next,
            _ => true,
        };
        if let (true, Some(spot)) = (is_end, spots.get(at)) {
            let first = address.wrapping_add((start % 0x1_0000) as u16);
            let last = address.wrapping_add((at % 0x1_0000) as u16);
            let count = at.saturating_sub(start).saturating_add(1);
            add_block(page, spot, first, last, count, line)?;
            start = at.saturating_add(1);
        }
    }
    Ok(())
}

/// Adds a block.
fn add_block(
    page: &mut Page,
    spot: &Spot,
    first: u16,
    last: u16,
    count: usize,
    line: usize,
) -> Result<(), AllocError> {
    let alloc = page.alloc();
    let wide = width_text(alloc, count as u64, line as u64)?;
    let name = if first == last {
        format!(in alloc; "{first:04X}")?
    } else {
        format!(in alloc; "{first:04X}–{last:04X}")?
    };
    if spot.words.is_empty() {
        open_blank(page, spot.class, wide.as_str());
        page.text(name.as_str());
        page.close("span");
        return Ok(());
    }
    let title = format!(in alloc; "{name} {}", spot.words)?;
    match &spot.target {
        Some(target) => {
            open_linked(
                page,
                spot.class,
                wide.as_str(),
                title.as_str(),
                target.as_str(),
            );
            page.text(name.as_str());
            page.close("a");
        }
        None => {
            open_titled(page, spot.class, wide.as_str(), title.as_str());
            page.text(name.as_str());
            page.close("span");
        }
    }
    Ok(())
}

/// Adds the opening tag of a block without words.
fn open_blank<'t>(page: &mut Page, class: &'t str, wide: &'t str) {
    page.open("span", &[with("class", class), with("style", wide)]);
}

/// Adds the opening tag of a block with a title.
fn open_titled<'t>(page: &mut Page, class: &'t str, wide: &'t str, title: &'t str) {
    page.open(
        "span",
        &[
            with("class", class),
            with("style", wide),
            with("title", title),
        ],
    );
}

/// Adds the opening tag of a block that leads to another place.
fn open_linked<'t>(
    page: &mut Page,
    class: &'t str,
    wide: &'t str,
    title: &'t str,
    target: &'t str,
) {
    page.open(
        "a",
        &[
            with("class", class),
            with("style", wide),
            with("title", title),
            with("href", target),
            with("tabindex", "-1"),
        ],
    );
}
