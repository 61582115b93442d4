//! The picture of what was kept of a run, spelled.

ghost use Rattle.std.specs.Prelude.{[], ◌∷◌, OnOk, IfOk};
ghost use Rattle.kp_draw.specs.Drawing.{Draws, IsSvg};
ghost use Rattle.kp_draw.specs.Rows.{titles_kept};

use crate::layout::{
    life_shape, put_event, put_heads, put_legend, put_words, whole_height, whole_width,
};
use crate::rows::{Kept, Row};
use crate::shapes::{push_shapes, push_style, push_tip};
use crate::svg::{Key, Tag, Value, push_end, push_event_end, push_event_front, push_start};
use std::alloc::{AllocError, Global};

/// Appends the lanes.
fn push_lanes(alloc: Global, text: &mut Vec<u8>, kept: &Kept) -> Result<(), AllocError>
    ensures { OnOk result (Draws [] text.old.items text.new.items) }
{
    let mut shapes = Vec::new(alloc);
    for life in &kept.lives {
        shapes.push(life_shape(life))?;
    }
    put_heads(&mut shapes, kept)?;
    put_legend(&mut shapes)?;
    push_shapes(text, &shapes)
}

/// Appends an event.
fn push_event(
    alloc: Global,
    text: &mut Vec<u8>,
    kept: &Kept,
    row: &Row,
    place: usize,
) -> Result<(), AllocError>
    ensures { OnOk result (Draws (row.now.title.items ∷ []) text.old.items text.new.items) }
{
    let mut shapes = Vec::new(alloc);
    put_event(&mut shapes, kept, row, place)?;
    push_event_front(text, &row.title)?;
    push_shapes(text, &shapes)?;
    push_event_end(text)
}

/// Appends the events.
fn push_events(alloc: Global, text: &mut Vec<u8>, kept: &Kept) -> Result<(), AllocError>
    ensures { OnOk result (Draws (titles_kept kept.now.rows.items) text.old.items text.new.items) }
{
    for (place, row) in kept.rows.iter().enumerate() {
        push_event(alloc, text, kept, row, place)?;
    }
    Ok(())
}

/// Appends the words of an event.
fn push_row_words(
    alloc: Global,
    text: &mut Vec<u8>,
    row: &Row,
    place: usize,
) -> Result<(), AllocError>
    ensures { OnOk result (Draws [] text.old.items text.new.items) }
{
    let mut shapes = Vec::new(alloc);
    put_words(&mut shapes, row, place)?;
    push_shapes(text, &shapes)
}

/// Appends the words of the events, over all else.
fn push_words(alloc: Global, text: &mut Vec<u8>, kept: &Kept) -> Result<(), AllocError>
    ensures { OnOk result (Draws [] text.old.items text.new.items) }
{
    for (place, row) in kept.rows.iter().enumerate() {
        push_row_words(alloc, text, row, place)?;
    }
    Ok(())
}

/// Appends the picture, and in front of it how large it is.
pub(crate) fn picture_of(alloc: Global, kept: &Kept) -> Result<Vec<u8>, AllocError>
    ensures { IfOk result (λ text. IsSvg (titles_kept kept.now.rows.items) text.items) }
{
    let mut text = Vec::new(alloc);
    let size = [
        (Key::Xmlns, Value::Word(b"http://www.w3.org/2000/svg")),
        (Key::Width, Value::Number(whole_width(kept.nodes.len()))),
        (Key::Height, Value::Number(whole_height(kept.rows.len()))),
    ];
    push_start(&mut text, Tag::Svg, &size)?;
    push_style(&mut text)?;
    push_tip(&mut text)?;
    push_lanes(alloc, &mut text, kept)?;
    push_events(alloc, &mut text, kept)?;
    push_words(alloc, &mut text, kept)?;
    push_end(&mut text, Tag::Svg)?;
    Ok(text)
}
