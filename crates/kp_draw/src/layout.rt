//! Where the parts of a picture stand, and what they look like. No contract speaks of it: it is looked at.

use crate::rows::{Change, Kept, Kind, Life, Message, Piece, Row};
use crate::shapes::{Look, Point, Shape, Tail};
use kp_words::split_first_at;
use std::alloc::AllocError;

/// How wide the column of the script's lines is.
const GUTTER: u64 = 300;

/// How wide the controller's lane is.
const CONTROLLER: u64 = 340;

/// How wide a node's lane is.
const NODE: u64 = 220;

/// How much room is to the right of the last lane.
const MARGIN: u64 = 100;

/// How high the heads of the lanes are.
const HEAD: u64 = 88;

/// How high a row is.
const ROW: u64 = 22;

/// How wide ten letters are.
const TEN_LETTERS: u64 = 67;

/// How many letters of a script's line are shown.
const CALL_LETTERS: usize = 34;

/// How many letters of an answer are shown in the controller's lane.
const RECORD_LETTERS: usize = 46;

/// How many letters of an answer are shown in a node's lane.
const ANSWER_LETTERS: usize = 28;

/// How wide so many letters are.
fn width_of(letters: usize) -> u64 {
    (letters as u64).saturating_mul(TEN_LETTERS) / 10
}

/// How many digits a number has.
fn digits_of(number: u64) -> usize {
    let mut digits = 1usize;
    let mut rest = number / 10;
    for _more in 0..19u8 {
        if rest > 0 {
            digits = digits.saturating_add(1);
            rest /= 10;
        }
    }
    digits
}

/// Where a lane stands.
fn lane_x(lane: u8) -> u64 {
    if lane == 0 {
        GUTTER
    } else {
        GUTTER + CONTROLLER + u64::from(lane - 1) * NODE
    }
}

/// Where a row stands.
fn row_y(place: usize) -> u64 {
    (place as u64)
        .saturating_mul(ROW)
        .saturating_add(HEAD + ROW)
}

/// Where an event's mark stands: a little below its words, so that a message's line runs below them.
fn spot(lane: u8, place: usize) -> Point {
    Point {
        x: lane_x(lane),
        y: row_y(place).saturating_add(6),
    }
}

/// Where the words of a lane begin.
fn words_at(lane: u8, place: usize) -> Point {
    Point {
        x: lane_x(lane).saturating_add(10),
        y: row_y(place).saturating_add(3),
    }
}

/// How wide the picture of so many nodes is.
pub(crate) fn whole_width(nodes: usize) -> u64 {
    (nodes as u64)
        .saturating_mul(NODE)
        .saturating_add(GUTTER + CONTROLLER + MARGIN)
}

/// How high the picture of so many events is.
pub(crate) fn whole_height(rows: usize) -> u64 {
    row_y(rows).saturating_add(ROW)
}

/// The script's line of an event.
fn call_of(row: &Row) -> &[u8] {
    row.title.get(..row.call).unwrap_or(&[])
}

/// The number of its line, and what was answered to it.
fn told_of(row: &Row) -> (&[u8], &[u8]) {
    let told = row.title.get(row.call..).unwrap_or(&[]);
    let told = told.get(1..).unwrap_or(&[]);
    split_first_at(b' ', told).unwrap_or((told, &[]))
}

/// What was answered to it.
fn answer_of(row: &Row) -> &[u8] {
    told_of(row).1
}

/// How many letters of the answer are shown.
fn letters_of(row: &Row) -> usize {
    if row.lane == 0 {
        RECORD_LETTERS
    } else {
        ANSWER_LETTERS
    }
}

/// A label of words, of which so many letters are shown.
fn label<'a>(look: Look, at: Point, words: &'a [u8], most: usize) -> Shape<'a> {
    if words.len() > most {
        Shape::Label {
            look,
            at,
            words: words.get(..most).unwrap_or(&[]),
            tail: Tail::Dots,
        }
    } else {
        Shape::Label {
            look,
            at,
            words,
            tail: Tail::Nothing,
        }
    }
}

/// A label of a word and a number.
fn numbered<'a>(look: Look, at: Point, words: &'a [u8], number: u64) -> Shape<'a> {
    Shape::Label {
        look,
        at,
        words,
        tail: Tail::Number(number),
    }
}

/// The colour of a leader epoch.
fn epoch_look(epoch: u32) -> Look {
    match epoch % 8 {
        0 => b"e0",
        1 => b"e1",
        2 => b"e2",
        3 => b"e3",
        4 => b"e4",
        5 => b"e5",
        6 => b"e6",
        _ => b"e7",
    }
}

/// What the words of an answer look like.
fn answer_look(row: &Row) -> Look {
    if row.refused {
        return b"refused";
    }
    match row.kind {
        Kind::Election => b"elected",
        _ => b"answer",
    }
}

/// The place behind the answer's words.
fn behind_answer(row: &Row, place: usize) -> Point {
    let letters = answer_of(row).len().min(letters_of(row)).saturating_add(1);
    further(words_at(row.lane, place), width_of(letters))
}

/// How wide the box of a batch is.
fn box_width(piece: &Piece) -> u64 {
    width_of(digits_of(piece.base)).saturating_add(8)
}

/// How wide the boxes of these batches are, with the room behind each.
fn boxes_width(pieces: &[Piece]) -> u64 {
    let mut width = 0u64;
    for piece in pieces {
        width = width.saturating_add(box_width(piece)).saturating_add(3);
    }
    width
}

/// How wide a mark of so many letters and this number is, with the room behind it; none where there is no number.
fn mark_width(letters: usize, number: Option<u64>) -> u64 {
    match number {
        Some(number) => width_of(letters.saturating_add(digits_of(number)).saturating_add(1)),
        None => 0,
    }
}

/// How many more batches than those that are kept came or were taken back, where there are more.
fn more_of(change: &Change) -> Option<u64> {
    if change.more > 0 {
        Some(change.more)
    } else {
        None
    }
}

/// How wide an event's words are, with its boxes and its marks.
fn words_width(row: &Row) -> u64 {
    let change = &row.change;
    let letters = answer_of(row).len().min(letters_of(row).saturating_add(2));
    width_of(letters)
        .saturating_add(boxes_width(&change.gone))
        .saturating_add(boxes_width(&change.added))
        .saturating_add(mark_width(1, more_of(change)))
        .saturating_add(mark_width(3, change.watermark))
        .saturating_add(mark_width(4, change.stable))
}

/// The place to the right of this one.
fn further(at: Point, by: u64) -> Point {
    Point {
        x: at.x.saturating_add(by),
        y: at.y,
    }
}

/// The place below this one.
fn lower(at: Point, by: u64) -> Point {
    Point {
        x: at.x,
        y: at.y.saturating_add(by),
    }
}

/// The place above this one.
fn higher(at: Point, by: u64) -> Point {
    Point {
        x: at.x,
        y: at.y.saturating_sub(by),
    }
}

/// The box of each batch, from this place on. Those that were taken back are struck out. Answers the place behind them.
fn put_boxes<'a>(
    shapes: &mut Vec<Shape<'a>>,
    pieces: &[Piece],
    gone: bool,
    from: Point,
) -> Result<Point, AllocError> {
    let mut at = from;
    for piece in pieces {
        let width = box_width(piece);
        shapes.push(Shape::Bar {
            look: epoch_look(piece.epoch),
            at: higher(at, 12),
            width,
            height: 15,
        })?;
        if gone {
            shapes.push(Shape::Line {
                look: b"gone",
                from: lower(at, 2),
                to: higher(further(at, width), 11),
            })?;
        }
        at = further(at, width.saturating_add(3));
    }
    Ok(at)
}

/// The offset in each of these boxes. Answers the place behind them.
fn put_offsets<'a>(
    shapes: &mut Vec<Shape<'a>>,
    pieces: &[Piece],
    from: Point,
) -> Result<Point, AllocError> {
    let mut at = from;
    for piece in pieces {
        shapes.push(numbered(b"offset", further(at, 4), b"", piece.base))?;
        at = further(at, box_width(piece).saturating_add(3));
    }
    Ok(at)
}

/// A mark in the lane's words, where there is one. Answers the place behind it.
fn put_mark<'a>(
    shapes: &mut Vec<Shape<'a>>,
    look: Look,
    words: &'a [u8],
    number: Option<u64>,
    at: Point,
) -> Result<Point, AllocError> {
    if let Some(number) = number {
        shapes.push(numbered(look, at, words, number))?;
    }
    Ok(further(at, mark_width(words.len(), number)))
}

/// The words of an event's change, from this place on.
fn put_change<'a>(
    shapes: &mut Vec<Shape<'a>>,
    change: &Change,
    at: Point,
) -> Result<(), AllocError> {
    let at = put_offsets(shapes, &change.gone, at)?;
    let at = put_offsets(shapes, &change.added, at)?;
    let at = put_mark(shapes, b"answer", b"+", more_of(change), at)?;
    let at = put_mark(shapes, b"high", b"hw ", change.watermark, at)?;
    let _at = put_mark(shapes, b"stable", b"lso ", change.stable, at)?;
    Ok(())
}

/// The words of an event.
pub(crate) fn put_words<'a>(
    shapes: &mut Vec<Shape<'a>>,
    row: &'a Row,
    place: usize,
) -> Result<(), AllocError> {
    let at = words_at(row.lane, place);
    shapes.push(label(
        b"line",
        Point { x: 46, y: at.y },
        told_of(row).0,
        CALL_LETTERS,
    ))?;
    shapes.push(label(
        b"call",
        Point { x: 56, y: at.y },
        call_of(row),
        CALL_LETTERS,
    ))?;
    let words = answer_of(row);
    shapes.push(label(answer_look(row), at, words, letters_of(row)))?;
    put_change(shapes, &row.change, behind_answer(row, place))
}

/// The mark of an event.
fn mark_of<'a>(row: &Row, at: Point) -> Shape<'a> {
    let look: Look = if row.refused { b"bad" } else { b"spot" };
    match row.kind {
        Kind::Election => Shape::Dot {
            look: b"crown",
            at,
            radius: 6,
        },
        Kind::Stop | Kind::Restart => Shape::Bar {
            look: b"edge",
            at: Point {
                x: at.x.saturating_sub(6),
                y: at.y.saturating_sub(2),
            },
            width: 12,
            height: 4,
        },
        _ => Shape::Dot {
            look,
            at,
            radius: 3,
        },
    }
}

/// Where the line of a message begins: at the event that sent it, or at the top.
fn begins_at(message: &Message) -> Point {
    let at = spot(message.from, message.place);
    if message.drawn {
        at
    } else {
        higher(at, ROW / 2)
    }
}

/// The line of a message that comes with an event.
fn put_coming<'a>(
    shapes: &mut Vec<Shape<'a>>,
    kept: &Kept,
    row: &Row,
    at: Point,
) -> Result<(), AllocError> {
    let Some(number) = row.came else {
        return Ok(());
    };
    let Some(message) = kept.messages.get(number) else {
        return Ok(());
    };
    shapes.push(Shape::Line {
        look: b"message",
        from: begins_at(message),
        to: at,
    })?;
    Ok(())
}

/// The broken line of a message that an event sends, where no event is drawn with which it comes; it ends with a cross, where it never comes.
fn put_broken<'a>(
    shapes: &mut Vec<Shape<'a>>,
    kept: &Kept,
    row: &Row,
    at: Point,
) -> Result<(), AllocError> {
    let Some(number) = row.sent else {
        return Ok(());
    };
    let Some(message) = kept.messages.get(number) else {
        return Ok(());
    };
    if message.shown {
        return Ok(());
    }
    let end = stub_end(message, at);
    shapes.push(Shape::Line {
        look: if message.comes { b"later" } else { b"lost" },
        from: at,
        to: end,
    })?;
    if message.comes {
        return Ok(());
    }
    put_cross(shapes, end)
}

/// Where the broken line of a message ends: a little way to the lane to which it goes.
fn stub_end(message: &Message, at: Point) -> Point {
    let x = if message.to > message.from {
        at.x.saturating_add(22)
    } else {
        at.x.saturating_sub(22)
    };
    Point {
        x,
        y: at.y.saturating_add(5),
    }
}

/// A cross.
fn put_cross<'a>(shapes: &mut Vec<Shape<'a>>, at: Point) -> Result<(), AllocError> {
    let left = at.x.saturating_sub(3);
    let right = at.x.saturating_add(3);
    let top = at.y.saturating_sub(3);
    let bottom = at.y.saturating_add(3);
    shapes.push(Shape::Line {
        look: b"cross",
        from: Point { x: left, y: top },
        to: Point {
            x: right,
            y: bottom,
        },
    })?;
    shapes.push(Shape::Line {
        look: b"cross",
        from: Point { x: left, y: bottom },
        to: Point { x: right, y: top },
    })?;
    Ok(())
}

/// What is drawn of an event, but for its words: its row, the message that comes with it, ground for its words, the message that it
/// sends, where that is broken off, its mark, and the batches that it changes.
pub(crate) fn put_event<'a>(
    shapes: &mut Vec<Shape<'a>>,
    kept: &Kept,
    row: &Row,
    place: usize,
) -> Result<(), AllocError> {
    let at = spot(row.lane, place);
    shapes.push(Shape::Bar {
        look: b"row",
        at: Point {
            x: 0,
            y: row_y(place).saturating_sub(ROW / 2),
        },
        width: whole_width(kept.nodes.len()),
        height: ROW,
    })?;
    put_coming(shapes, kept, row, at)?;
    shapes.push(Shape::Bar {
        look: b"ground",
        at: higher(words_at(row.lane, place), 10),
        width: words_width(row),
        height: 13,
    })?;
    put_broken(shapes, kept, row, at)?;
    shapes.push(mark_of(row, at))?;
    let from = behind_answer(row, place);
    let from = put_boxes(shapes, &row.change.gone, true, from)?;
    let _behind = put_boxes(shapes, &row.change.added, false, from)?;
    Ok(())
}

/// The line of a node's life.
pub(crate) fn life_shape<'a>(life: &Life) -> Shape<'a> {
    let from = spot(life.lane, life.from);
    Shape::Line {
        look: b"life",
        from: if life.from == 0 {
            higher(from, ROW)
        } else {
            from
        },
        to: spot(life.lane, life.to),
    }
}

/// The heads of the lanes, and the controller's line.
pub(crate) fn put_heads<'a>(shapes: &mut Vec<Shape<'a>>, kept: &Kept) -> Result<(), AllocError> {
    let top = Point { x: 0, y: HEAD };
    shapes.push(Shape::Line {
        look: b"life",
        from: Point {
            x: lane_x(0),
            y: HEAD,
        },
        to: spot(0, kept.rows.len()),
    })?;
    shapes.push(label(b"head", further(higher(top, 8), 8), b"script", 6))?;
    shapes.push(label(b"head", further(higher(top, 8), GUTTER), b"controller", 10))?;
    let mut lane = 1u8;
    for node in 0..kept.nodes.len() {
        let at = higher(
            Point {
                x: lane_x(lane),
                y: HEAD,
            },
            8,
        );
        shapes.push(numbered(b"head", at, b"node ", node as u64))?;
        lane = lane.saturating_add(1);
    }
    Ok(())
}

/// What the colours and marks say.
pub(crate) fn put_legend<'a>(shapes: &mut Vec<Shape<'a>>) -> Result<(), AllocError> {
    let mut at = Point { x: 8, y: 24 };
    for epoch in 0..8u32 {
        shapes.push(Shape::Bar {
            look: epoch_look(epoch),
            at: higher(at, 12),
            width: 22,
            height: 15,
        })?;
        shapes.push(numbered(b"offset", further(at, 4), b"", u64::from(epoch)))?;
        at = further(at, 26);
    }
    shapes.push(label(b"answer", at, b"leader epochs by colour", 100))?;
    let words: &[u8] =
        b"a box: a batch with its first offset, struck out where it is taken back; hw: high watermark; lso: last stable offset";
    shapes.push(label(b"answer", Point { x: 8, y: 46 }, words, 200))?;
    Ok(())
}
