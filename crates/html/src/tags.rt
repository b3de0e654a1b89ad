// Tags of HTML.

ghost use Rattle.std.specs.List.{flat_map};
ghost use Rattle.texts.specs.Device.{Puts};
ghost use Rattle.html.specs.Markup.{attribute_text, html_close, html_open};

use crate::text::write_text;
use texts::{DeviceFault, Sink, put};

/// An attribute of an element.
#[derive(Clone, Copy)]
pub struct Attribute<'a> {
    /// The name, written as it is.
    pub name: &'static str,
    /// The value, written as text between double quotes.
    pub value: &'a [u8],
}

/// Writes a name as it is.
fn put_name<W: Sink>(name: &'static str, out: &mut W) -> Result<(), DeviceFault>
    ensures { Puts (W.state out.old) name.now result (W.state out.new) }
{
    put(out, name.as_bytes())
}

/// Writes the opening tag of an element. Its name is written as it is.
///
/// # Errors
///
/// The failure of the sink, which then took a prefix of the tag.
pub fn open_tag<W: Sink>(
    element: &'static str,
    attributes: &[Attribute],
    out: &mut W,
) -> Result<(), DeviceFault>
    ensures { Puts (W.state out.old) (html_open element.now attributes.now) result (W.state out.new) }
{
    put(out, b"<")?;
    put_name(element, out)?;
    write_attributes(attributes, out)?;
    put(out, b">")
}

/// Writes each attribute after a blank.
fn write_attributes<W: Sink>(attributes: &[Attribute], out: &mut W) -> Result<(), DeviceFault>
    ensures { Puts (W.state out.old) (flat_map attribute_text attributes.now) result
        (W.state out.new) }
{
    for attribute in attributes {
        write_attribute(attribute, out)?;
    }
    Ok(())
}

fn write_attribute<W: Sink>(attribute: &Attribute, out: &mut W) -> Result<(), DeviceFault>
    ensures { Puts (W.state out.old) (attribute_text attribute.now) result (W.state out.new) }
{
    put(out, b" ")?;
    put_name(attribute.name, out)?;
    put(out, b"=\"")?;
    write_text(attribute.value, out)?;
    put(out, b"\"")
}

/// Writes the closing tag of an element. Its name is written as it is.
///
/// # Errors
///
/// The failure of the sink, which then took a prefix of the tag.
pub fn close_tag<W: Sink>(element: &'static str, out: &mut W) -> Result<(), DeviceFault>
    ensures { Puts (W.state out.old) (html_close element.now) result (W.state out.new) }
{
    put(out, b"</")?;
    put_name(element, out)?;
    put(out, b">")
}
