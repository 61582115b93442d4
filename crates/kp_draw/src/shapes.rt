//! The parts of a picture, and how each is written as an element.

ghost use Rattle.std.specs.Prelude.{◌≡◌, [], map, true, OnOk};
ghost use Rattle.kp_draw.specs.Drawing.{Draws, are_apart, attribute_of, keys_in};

use crate::svg::{Attribute, Key, Tag, Value, push_digits, push_end, push_start, push_words};
use std::alloc::AllocError;

/// What a part of the picture looks like: the word that the style has for it.
pub(crate) type Look = &'static [u8];

/// A place of the picture, in pixels from its left and from its top.
#[derive(Clone, Copy)]
pub(crate) struct Point {
    pub(crate) x: u64,
    pub(crate) y: u64,
}

/// What stands behind the words of a label.
#[derive(Clone, Copy)]
pub(crate) enum Tail {
    Nothing,
    Number(u64),
    Dots,
}

/// A part of the picture.
#[derive(Clone, Copy)]
pub(crate) enum Shape<'a> {
    Line {
        look: Look,
        from: Point,
        to: Point,
    },
    Bar {
        look: Look,
        at: Point,
        width: u64,
        height: u64,
    },
    Dot {
        look: Look,
        at: Point,
        radius: u64,
    },
    Label {
        look: Look,
        at: Point,
        words: &'a [u8],
        tail: Tail,
    },
}

/// What the parts look like, on a light ground and on a dark one.
const STYLE: &[u8] = b"
:root { --ground: #ffffff; --ink: #1f2328; --dim: #6e7781; --line: #afb8c1; --way: #0969da; --bad: #cf222e; --high: #116329; --stable: #8250df; --band: #eaeef2; }
svg { background: var(--ground); }
text { font: 11px ui-monospace, Menlo, Consolas, 'DejaVu Sans Mono', monospace; fill: var(--ink); white-space: pre; pointer-events: none; paint-order: stroke; stroke: var(--ground); stroke-width: 3px; stroke-linejoin: round; }
.ground { fill: var(--ground); pointer-events: none; }
.head { font-weight: bold; font-size: 13px; }
.call { fill: var(--dim); }
.line { fill: var(--dim); text-anchor: end; }
.elected { font-weight: bold; }
.refused { fill: var(--bad); }
.high { fill: var(--high); font-weight: bold; }
.stable { fill: var(--stable); font-weight: bold; }
.offset { fill: #1f2328; stroke: none; }
.row { fill: var(--band); fill-opacity: 0; }
g:hover .row { fill-opacity: 0.7; }
.life { stroke: var(--line); stroke-width: 2; }
.message { stroke: var(--way); stroke-width: 1.2; stroke-opacity: 0.75; marker-end: url(#tip); }
.tip { fill: var(--way); }
g:hover .message { stroke-width: 2.4; stroke-opacity: 1; }
.later { stroke: var(--way); stroke-width: 1.3; stroke-dasharray: 4 2; }
.lost { stroke: var(--bad); stroke-width: 1.3; stroke-dasharray: 4 2; }
.cross { stroke: var(--bad); stroke-width: 1.6; }
.gone { stroke: #a40e26; stroke-width: 2.5; }
.spot { fill: var(--ink); }
.bad { fill: var(--bad); }
.crown { fill: #d4a72c; stroke: var(--ink); }
.edge { fill: var(--ink); }
.e0 { fill: #a5d6ff; } .e1 { fill: #aceebb; } .e2 { fill: #f8e3a1; } .e3 { fill: #ffc6b3; }
.e4 { fill: #d8b9ff; } .e5 { fill: #9be9e0; } .e6 { fill: #ffc2e0; } .e7 { fill: #d0d7de; }
@media (prefers-color-scheme: dark) {
:root { --ground: #0d1117; --ink: #e6edf3; --dim: #8d96a0; --line: #484f58; --way: #4493f8; --bad: #ff7b72; --high: #56d364; --stable: #d2a8ff; --band: #21262d; }
.e0 { fill: #58a6ff; } .e1 { fill: #56d364; } .e2 { fill: #e3b341; } .e3 { fill: #ffa28b; }
.e4 { fill: #bc8cff; } .e5 { fill: #39c5bb; } .e6 { fill: #f778ba; } .e7 { fill: #b1bac4; }
}
";

/// Appends an element with nothing in it.
fn push_element(
    text: &mut Vec<u8>,
    tag: Tag,
    attributes: &[Attribute<'_>],
) -> Result<(), AllocError>
    requires { are_apart (keys_in (map attribute_of attributes.now)) ≡ true }
    ensures { OnOk result (Draws [] text.old.items text.new.items) }
{
    push_start(text, tag, attributes)?;
    push_end(text, tag)
}

/// Appends a line.
fn push_line(text: &mut Vec<u8>, look: Look, from: Point, to: Point) -> Result<(), AllocError>
    ensures { OnOk result (Draws [] text.old.items text.new.items) }
{
    let attributes = [
        (Key::Class, Value::Word(look)),
        (Key::X1, Value::Number(from.x)),
        (Key::Y1, Value::Number(from.y)),
        (Key::X2, Value::Number(to.x)),
        (Key::Y2, Value::Number(to.y)),
    ];
    push_element(text, Tag::Line, &attributes)
}

/// Appends a rectangle.
fn push_bar(
    text: &mut Vec<u8>,
    look: Look,
    at: Point,
    width: u64,
    height: u64,
) -> Result<(), AllocError>
    ensures { OnOk result (Draws [] text.old.items text.new.items) }
{
    let attributes = [
        (Key::Class, Value::Word(look)),
        (Key::X, Value::Number(at.x)),
        (Key::Y, Value::Number(at.y)),
        (Key::Width, Value::Number(width)),
        (Key::Height, Value::Number(height)),
    ];
    push_element(text, Tag::Rect, &attributes)
}

/// Appends a dot.
fn push_dot(text: &mut Vec<u8>, look: Look, at: Point, radius: u64) -> Result<(), AllocError>
    ensures { OnOk result (Draws [] text.old.items text.new.items) }
{
    let attributes = [
        (Key::Class, Value::Word(look)),
        (Key::Cx, Value::Number(at.x)),
        (Key::Cy, Value::Number(at.y)),
        (Key::R, Value::Number(radius)),
    ];
    push_element(text, Tag::Circle, &attributes)
}

/// Appends what stands behind the words of a label.
fn push_tail(text: &mut Vec<u8>, tail: Tail) -> Result<(), AllocError>
    ensures { OnOk result (Draws [] text.old.items text.new.items) }
{
    match tail {
        Tail::Nothing => Ok(()),
        Tail::Number(number) => push_digits(text, number),
        Tail::Dots => push_words(text, b".."),
    }
}

/// Appends words.
fn push_label(
    text: &mut Vec<u8>,
    look: Look,
    at: Point,
    words: &[u8],
    tail: Tail,
) -> Result<(), AllocError>
    ensures { OnOk result (Draws [] text.old.items text.new.items) }
{
    let attributes = [
        (Key::Class, Value::Word(look)),
        (Key::X, Value::Number(at.x)),
        (Key::Y, Value::Number(at.y)),
    ];
    push_start(text, Tag::Text, &attributes)?;
    push_words(text, words)?;
    push_tail(text, tail)?;
    push_end(text, Tag::Text)
}

/// Appends a part of the picture.
fn push_shape(text: &mut Vec<u8>, shape: &Shape<'_>) -> Result<(), AllocError>
    ensures { OnOk result (Draws [] text.old.items text.new.items) }
{
    match *shape {
        Shape::Line { look, from, to } => push_line(text, look, from, to),
        Shape::Bar {
            look,
            at,
            width,
            height,
        } => push_bar(text, look, at, width, height),
        Shape::Dot { look, at, radius } => push_dot(text, look, at, radius),
        Shape::Label {
            look,
            at,
            words,
            tail,
        } => push_label(text, look, at, words, tail),
    }
}

/// Appends parts of the picture, in their order.
pub(crate) fn push_shapes(text: &mut Vec<u8>, shapes: &[Shape<'_>]) -> Result<(), AllocError>
    ensures { OnOk result (Draws [] text.old.items text.new.items) }
{
    for shape in shapes {
        push_shape(text, shape)?;
    }
    Ok(())
}

/// Appends what the parts look like.
pub(crate) fn push_style(text: &mut Vec<u8>) -> Result<(), AllocError>
    ensures { OnOk result (Draws [] text.old.items text.new.items) }
{
    push_start(text, Tag::Style, &[])?;
    push_words(text, STYLE)?;
    push_end(text, Tag::Style)
}

/// Appends the tip of an arrow.
pub(crate) fn push_tip(text: &mut Vec<u8>) -> Result<(), AllocError>
    ensures { OnOk result (Draws [] text.old.items text.new.items) }
{
    let place = [
        (Key::Id, Value::Word(b"tip")),
        (Key::ViewBox, Value::Word(b"0 0 8 8")),
        (Key::RefX, Value::Number(11)),
        (Key::RefY, Value::Number(4)),
        (Key::MarkerWidth, Value::Number(7)),
        (Key::MarkerHeight, Value::Number(7)),
        (Key::Orient, Value::Word(b"auto")),
    ];
    let way = [
        (Key::Class, Value::Word(b"tip")),
        (Key::D, Value::Word(b"M 0 0 L 8 4 L 0 8 Z")),
    ];
    push_start(text, Tag::Marker, &place)?;
    push_element(text, Tag::Path, &way)?;
    push_end(text, Tag::Marker)
}
