//! The elements of a picture, and how they are written.

ghost use Rattle.std.specs.Prelude.{◌≡◌, ◌++◌, [], map, true, OnOk};
ghost use Rattle.std.specs.Fmt.{decimal};
ghost use Rattle.kp_draw.specs.Drawing.{Closes, ClosesEvent, Draws, Opens, OpensEvent, are_apart, attribute_of, attribute_text, escaped, escaped_byte, key_name, keys_in, tag_name, value_text};

use itoa::Buffer;
use std::alloc::AllocError;

/// What an element is.
#[derive(Clone, Copy)]
pub(crate) enum Tag {
    Svg,
    Style,
    Marker,
    Path,
    Line,
    Rect,
    Circle,
    Text,
}

/// What an attribute says.
#[derive(Clone, Copy)]
pub(crate) enum Key {
    Xmlns,
    Class,
    Id,
    ViewBox,
    RefX,
    RefY,
    MarkerWidth,
    MarkerHeight,
    Orient,
    D,
    Width,
    Height,
    X,
    Y,
    X1,
    Y1,
    X2,
    Y2,
    Cx,
    Cy,
    R,
}

/// The value of an attribute.
#[derive(Clone, Copy)]
pub(crate) enum Value<'a> {
    Number(u64),
    Word(&'a [u8]),
}

/// An attribute of an element.
pub(crate) type Attribute<'a> = (Key, Value<'a>);

impl Tag {
    /// How it is written.
    fn name(self) -> &'static [u8]
        ensures { result.now ≡ tag_name self }
    {
        match self {
            Tag::Svg => b"svg",
            Tag::Style => b"style",
            Tag::Marker => b"marker",
            Tag::Path => b"path",
            Tag::Line => b"line",
            Tag::Rect => b"rect",
            Tag::Circle => b"circle",
            Tag::Text => b"text",
        }
    }
}

impl Key {
    /// How it is written.
    fn name(self) -> &'static [u8]
        ensures { result.now ≡ key_name self }
    {
        match self {
            Key::Xmlns => b"xmlns",
            Key::Class => b"class",
            Key::Id => b"id",
            Key::ViewBox => b"viewBox",
            Key::RefX => b"refX",
            Key::RefY => b"refY",
            Key::MarkerWidth => b"markerWidth",
            Key::MarkerHeight => b"markerHeight",
            Key::Orient => b"orient",
            Key::D => b"d",
            Key::Width => b"width",
            Key::Height => b"height",
            Key::X => b"x",
            Key::Y => b"y",
            Key::X1 => b"x1",
            Key::Y1 => b"y1",
            Key::X2 => b"x2",
            Key::Y2 => b"y2",
            Key::Cx => b"cx",
            Key::Cy => b"cy",
            Key::R => b"r",
        }
    }
}

/// Appends a byte of a text or of an attribute's value.
fn push_escaped_byte(text: &mut Vec<u8>, byte: u8) -> Result<(), AllocError>
    ensures { OnOk result (text.new.items ≡ text.old.items ++ escaped_byte byte) }
{
    match byte {
        b'&' => text.extend_from_slice(b"&amp;"),
        b'<' => text.extend_from_slice(b"&lt;"),
        b'>' => text.extend_from_slice(b"&gt;"),
        b'"' => text.extend_from_slice(b"&quot;"),
        b'\n' | b' '..=b'~' => text.extend_from_slice(&[byte]),
        _ => text.extend_from_slice(b"?"),
    }
}

/// Appends a text, or an attribute's value.
fn push_escaped(text: &mut Vec<u8>, bytes: &[u8]) -> Result<(), AllocError>
    ensures { OnOk result (text.new.items ≡ text.old.items ++ escaped bytes.now) }
{
    for byte in bytes {
        push_escaped_byte(text, *byte)?;
    }
    Ok(())
}

/// Appends a number in decimal digits.
fn push_number(text: &mut Vec<u8>, number: u64) -> Result<(), AllocError>
    ensures { OnOk result (text.new.items ≡ text.old.items ++ escaped (decimal number)) }
{
    let mut buffer = Buffer::new();
    push_escaped(text, buffer.format(number).as_bytes())
}

/// Appends an attribute's value.
fn push_value(text: &mut Vec<u8>, value: Value<'_>) -> Result<(), AllocError>
    ensures { OnOk result (text.new.items ≡ text.old.items ++ escaped (value_text value.entry)) }
{
    match value {
        Value::Word(word) => push_escaped(text, word),
        Value::Number(number) => push_number(text, number),
    }
}

/// Appends an attribute.
fn push_attribute(text: &mut Vec<u8>, attribute: Attribute<'_>) -> Result<(), AllocError>
    ensures { OnOk result (text.new.items ≡ text.old.items ++ attribute_text (attribute_of attribute.entry)) }
{
    text.extend_from_slice(b" ")?;
    text.extend_from_slice(attribute.0.name())?;
    text.extend_from_slice(b"=\"")?;
    push_value(text, attribute.1)?;
    text.extend_from_slice(b"\"")
}

/// Appends the beginning of an element.
pub(crate) fn push_start(
    text: &mut Vec<u8>,
    tag: Tag,
    attributes: &[Attribute<'_>],
) -> Result<(), AllocError>
    requires { are_apart (keys_in (map attribute_of attributes.now)) ≡ true }
    ensures { OnOk result (Opens tag (map attribute_of attributes.now) text.old.items text.new.items) }
{
    text.extend_from_slice(b"<")?;
    text.extend_from_slice(tag.name())?;
    for attribute in attributes {
        push_attribute(text, *attribute)?;
    }
    text.extend_from_slice(b">")
}

/// Appends the end of an element.
pub(crate) fn push_end(text: &mut Vec<u8>, tag: Tag) -> Result<(), AllocError>
    ensures { OnOk result (Closes tag text.old.items text.new.items) }
{
    text.extend_from_slice(b"</")?;
    text.extend_from_slice(tag.name())?;
    text.extend_from_slice(b">\n")
}

/// Appends words.
pub(crate) fn push_words(text: &mut Vec<u8>, words: &[u8]) -> Result<(), AllocError>
    ensures { OnOk result (Draws [] text.old.items text.new.items) }
{
    push_escaped(text, words)
}

/// Appends a number in decimal digits, as words.
pub(crate) fn push_digits(text: &mut Vec<u8>, number: u64) -> Result<(), AllocError>
    ensures { OnOk result (Draws [] text.old.items text.new.items) }
{
    push_number(text, number)
}

/// Appends the beginning of an event.
pub(crate) fn push_event_front(text: &mut Vec<u8>, title: &[u8]) -> Result<(), AllocError>
    ensures { OnOk result (OpensEvent title.now text.old.items text.new.items) }
{
    text.extend_from_slice(b"<g><title>")?;
    push_escaped(text, title)?;
    text.extend_from_slice(b"</title>\n")
}

/// Appends the end of an event.
pub(crate) fn push_event_end(text: &mut Vec<u8>) -> Result<(), AllocError>
    ensures { OnOk result (ClosesEvent text.old.items text.new.items) }
{
    text.extend_from_slice(b"</g>\n")
}
