// The bytes of the ROM as a picture.

use program_facts::WIDE;
use report_parts::{Page, Picture, Reported, Spot, add_picture, side_words};
use std::alloc::AllocError;

/// The classes of bytes with their words, in the order of the key.
const KINDS: [(&str, &str); 6] = [
    ("m", "code of main"),
    ("n", "code of the NMI routine"),
    ("b", "code of both"),
    ("d", "data that the code may read"),
    ("x", "never reached, no known read"),
    ("z", "the same, fill of one byte"),
];

/// So many equal bytes that are never reached are fill.
const FILL: usize = 8;

/// The bytes that a ROM may have.
const MOST: u64 = 16_384;

/// Adds the picture of the ROM.
pub fn add_rom(report: &Reported, page: &mut Page) -> Result<(), AllocError> {
    let spots = rom_spots(report)?;
    let whole = spots.len() as u64;
    let code = count_of(spots.as_slice(), "m")
        .saturating_add(count_of(spots.as_slice(), "n"))
        .saturating_add(count_of(spots.as_slice(), "b"));
    page.raw(
        "<section id=\"rom\" aria-labelledby=\"h-rom\"><h2 id=\"h-rom\">The ROM’s bytes</h2>\n<p>",
    );
    page.number(code);
    page.raw(" of ");
    page.number(whole);
    page.raw(" bytes are code that is reached (");
    page.share(code, whole);
    page.raw("). The ROM could have 16,384 bytes; ");
    page.number(MOST.saturating_sub(whole));
    page.raw(" are free after it.</p>\n<ul class=\"key\">");
    let mut label = String::from_str(report.alloc, "Map of the ROM:")?;
    for (class, words) in KINDS {
        let bytes = count_of(spots.as_slice(), class);
        if bytes > 0 {
            report.add_key(page, class, words, Some(bytes))?;
            label.push_str(format!(in report.alloc; " {words} {bytes};")?.as_str())?;
        }
    }
    page.raw("</ul>\n");
    let line = if whole <= 4096 {
        64
    } else if whole <= 8192 {
        128
    } else {
        256
    };
    add_picture(
        page,
        &Picture {
            label: label.as_str(),
            base: 0,
            line,
            spots: spots.as_slice(),
        },
    )?;
    add_rom_note(report, page, line as u64)?;
    page.raw("</section>\n");
    Ok(())
}

/// Adds what a line of the picture is, and the instructions whose reads say nothing of a byte.
fn add_rom_note(report: &Reported, page: &mut Page, line: u64) -> Result<(), AllocError> {
    page.raw("<p class=\"mut\">");
    page.number(line);
    page.raw(" bytes a line; each block is of one procedure and leads to its listing.");
    let mut wide = Vec::new(report.alloc);
    for load in &report.accesses.loads {
        if load.ranges.iter().any(|range| {
            u32::from(range.high()).saturating_sub(u32::from(range.low())) >= WIDE
        }) {
            wide.push(load.address)?;
        }
    }
    if !wide.is_empty() {
        page.raw(" ");
        page.count(wide.len() as u64, "instruction");
        page.raw(" read somewhere in a range of 4,096 bytes or more, which is not shown: ");
        report.add_addresses(page, wide.as_slice(), 12)?;
        page.raw(".");
    }
    page.raw("</p>\n");
    Ok(())
}

/// What each byte of the ROM is.
fn rom_spots(report: &Reported) -> Result<Vec<Spot>, AllocError> {
    let mut spots = Vec::new(report.alloc);
    let mut next = 0u16;
    let accepted = report.view.accepted();
    for address in 0..accepted.rom().len() {
        if address < next {
            continue;
        }
        if let Some(bytes) = accepted.code().bytes_at(address) {
            let length = (bytes.len() % 0x1_0000) as u16;
            next = address.saturating_add(length.max(1));
            add_code(report, &mut spots, address)?;
        } else {
            let gap = report.view.gap_at(address);
            next = gap.behind().max(address.saturating_add(1));
            add_gap_spots(report, &mut spots, address, gap.bytes)?;
        }
    }
    Ok(spots)
}

/// Adds the bytes of an instruction that do not lie in the one before it.
fn add_code(report: &Reported, spots: &mut Vec<Spot>, address: u16) -> Result<(), AllocError> {
    let rows = report.view.survey().rows().at(address);
    let (class, _) = side_words(report.sides.of_rows(rows));
    let Some(bytes) = report.view.accepted().code().bytes_at(address) else {
        return Ok(());
    };
    for _ in bytes {
        let words = match rows.first() {
            Some(row) => report.name_of(row.proc)?,
            None => String::new(report.alloc),
        };
        spots.push(Spot {
            class,
            words,
            target: report.target_of("a", address)?,
        })?;
    }
    Ok(())
}

/// Adds the bytes of a gap.
fn add_gap_spots(
    report: &Reported,
    spots: &mut Vec<Spot>,
    start: u16,
    bytes: &[u8],
) -> Result<(), AllocError> {
    let fill = fill_flags(report.alloc, bytes)?;
    let mut address = start;
    for (byte, is_fill) in bytes.iter().zip(fill.iter()) {
        let (class, words) = if report.view.survey().is_read(address) {
            ("d", String::from_str(report.alloc, "may be read as data")?)
        } else if *is_fill {
            (
                "z",
                format!(in report.alloc; "never reached, fill {byte:02X}")?,
            )
        } else {
            ("x", String::from_str(report.alloc, "never reached")?)
        };
        spots.push(Spot {
            class,
            words,
            target: report.target_of("a", start)?,
        })?;
        address = address.saturating_add(1);
    }
    Ok(())
}

/// Which bytes of a gap are fill: eight equal ones or more, a whole gap of one byte, or 00 or FF up to its end.
fn fill_flags(alloc: std::alloc::Global, bytes: &[u8]) -> Result<Vec<bool>, AllocError> {
    let mut flags = vec![in alloc; false; bytes.len()]?;
    let mut start = 0usize;
    for at in 0..bytes.len() {
        let next = bytes.get(at.saturating_add(1));
        if next == bytes.get(at) {
            continue;
        }
        let count = at.saturating_sub(start).saturating_add(1);
        let is_end = next.is_none();
        let is_blank = matches!(bytes.get(at), Some(0x00 | 0xFF));
        if count >= FILL || is_end && (start == 0 || is_blank) {
            for place in start..=at {
                if let Some(flag) = flags.get_mut(place) {
                    *flag = true;
                }
            }
        }
        start = at.saturating_add(1);
    }
    Ok(flags)
}

/// The number of bytes of a class.
pub(crate) fn count_of(spots: &[Spot], class: &str) -> u64 {
    let mut count = 0u64;
    for spot in spots {
        if spot.class == class {
            count = count.saturating_add(1);
        }
    }
    count
}
