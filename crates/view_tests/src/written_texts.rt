// What is written of a text and of tags, and sinks that fail.

use html::{Attribute, close_tag, open_tag, text_has_no_markup, write_text};
use memory_devices::Taken;
use std::test::Fail;
use texts::DeviceFault;

/// Texts, and what is written of them (HTML Living Standard, "Named character references").
const TEXTS: &[(&[u8], &str)] = &[
    (b"", ""),
    (b"docoins", "docoins"),
    (b"<b>&amp;</b>", "&lt;b&gt;&amp;amp;&lt;/b&gt;"),
    (b"\" onclick='x'", "&quot; onclick=&#39;x&#39;"),
    // Control characters.
    (b"a\x00b\x1Fc\x7Fd\x1B[2J\r\n\t", "a?b?c?d?[2J???"),
    (b" ~", " ~"),
    // UTF-8 of two, three and four bytes.
    (
        b"\xC3\xBCber \xE2\x86\x92 \xF0\x9D\x84\x9E",
        "\u{FC}ber \u{2192} \u{1D11E}",
    ),
    // Not UTF-8: a stray byte, a cut character, an encoding that is too long, a surrogate.
    (b"a\xFFb", "a\u{FFFD}b"),
    (b"\xE2\x86<", "\u{FFFD}&lt;"),
    (b"\xC0\xBC", "\u{FFFD}\u{FFFD}"),
    (b"\xED\xA0\x80", "\u{FFFD}\u{FFFD}\u{FFFD}"),
];

#[test]
fn texts(rt: HostRuntime) -> Result<(), Fail> {
    for (text, expected) in TEXTS {
        let mut out = Taken::new(rt.alloc());
        let written = write_text(text, &mut out);
        assert!(rt;
            written.is_ok() && out.bytes.as_slice() == expected.as_bytes(),
            "{expected}"
        );
    }
    text_has_no_markup();
    Ok(())
}

/// Each byte alone: what is written of it has no sign of markup but `&`, and none of ASCII's control characters.
#[test]
fn each_byte(rt: HostRuntime) -> Result<(), Fail> {
    for byte in 0..=255u8 {
        let mut out = Taken::new(rt.alloc());
        let written = write_text(&[byte], &mut out);
        let is_right = match byte {
            b'&' => out.bytes.as_slice() == b"&amp;".as_slice(),
            b'<' => out.bytes.as_slice() == b"&lt;".as_slice(),
            b'>' => out.bytes.as_slice() == b"&gt;".as_slice(),
            b'"' => out.bytes.as_slice() == b"&quot;".as_slice(),
            b'\'' => out.bytes.as_slice() == b"&#39;".as_slice(),
            0..=31 | 127 => out.bytes.as_slice() == b"?".as_slice(),
            128..=255 => out.bytes.as_slice() == "\u{FFFD}".as_bytes(),
            _ => out.bytes.as_slice() == [byte].as_slice(),
        };
        assert!(rt; written.is_ok() && is_right, "{byte}");
    }
    Ok(())
}

/// Writes a link.
fn write_link(out: &mut Taken) -> Result<(), DeviceFault> {
    let attributes = [
        Attribute {
            name: "href",
            value: b"#a0083",
        },
        Attribute {
            name: "title",
            value: b"it's <b>",
        },
    ];
    open_tag("a", &attributes, out)?;
    close_tag("a", out)?;
    open_tag("br", &[], out)
}

const LINK: &[u8] = b"<a href=\"#a0083\" title=\"it&#39;s &lt;b&gt;\"></a><br>";

/// A sink that takes one byte a call gets the same as one that takes all. One that fails at any call got a prefix.
#[test]
fn tags(rt: HostRuntime) -> Result<(), Fail> {
    let mut out = Taken::new(rt.alloc());
    assert!(rt; write_link(&mut out).is_ok() && out.bytes.as_slice() == LINK);
    for calls in 0..=LINK.len() {
        let mut out = Taken::failing(rt.alloc(), 1, calls as u64);
        let is_whole = write_link(&mut out).is_ok();
        assert!(rt;
            is_whole == (calls == LINK.len()) && Some(out.bytes.as_slice()) == LINK.get(..calls),
            "{calls} calls"
        );
    }
    Ok(())
}
