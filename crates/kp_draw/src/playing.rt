//! A script played line by line, with what is kept of each event for its picture.

ghost use Rattle.std.specs.Prelude.{◌≡◌, ◌+◌, ◌<◌, ◌^◌, ℕ, List, IfOk, IfErr, length};
ghost use Rattle.kp_types.specs.declared.refusal.Refusal.TheVariants.{Memory as WantOfMemory};
ghost use Rattle.kp_script.specs.Call.{Call as SpelledCall, IsHeader, call_text};
ghost use Rattle.kp_script.specs.Playing.{MayPlay};
ghost use Rattle.kp_script.specs.Seen.{seen_call, seen_header};
ghost use Rattle.kp_draw.specs.Rows.{Adds, Spells, Stands, Titles, titles_kept};
ghost use Rattle.kp_world.specs.Shown.{Stage};

use crate::lines::Lines;
use crate::looking::look;
use crate::rows::{Change, Kept, Kind, Life, Message, Row, Seen};
use kp_batch::Speller;
use kp_replica::{PlainAct, Status};
use kp_script::{
    Call, CountedLine, Header, Line, Work, call_of, limits_of, next_counted, play_line,
};
use kp_types::{NodeId, Refusal};
use kp_world::World;
use std::alloc::{AllocError, Global};

/// An event that was played: its title, and whether it was refused.
#[derive(Drop)]
struct Told {
    title: Vec<u8>,
    refused: bool,
}

/// Plays the call that this line spells, and tells its title. F33.
fn play_titled(
    alloc: Global,
    number: u64,
    line: &[u8],
    call: Call<'_>,
    world: &mut World,
    work: &mut Work,
) -> Result<Told, Refusal>
    requires call { MayPlay world.old (seen_call call) }
    requires line { line.now ≡ call_text (seen_call call) }
    ensures titled { IfOk result (λ told.
        Titles (number, seen_call call.entry) world.old world.new told.title.items) }
    ensures nodes { length world.new.nodes ≡ length world.old.nodes }
    ensures first { world.new.first ≡ world.old.first }
    ensures only { IfErr result (λ refusal. refusal ≡ WantOfMemory) }
{
    let mut parts = Vec::new(alloc);
    work.text.clear();
    work.text.extend_from_slice(line)?;
    work.text.extend_from_slice(b"\n")?;
    let refused = play_line(alloc, Line { number, call }, world, work, &mut parts)?;
    let last = work.text.len().saturating_sub(1);
    let title = Vec::from_slice(alloc, &work.text[..last])?;
    Ok(Told {
        title,
        refused: refused > 0,
    })
}

/// What the call's event is, as far as its mark goes.
fn kind_of(call: &Call<'_>) -> Kind {
    match call {
        Call::Elect { .. } => Kind::Election,
        Call::Append { .. } | Call::Raw { .. } => Kind::Append,
        Call::Deliver { .. } => Kind::Delivery,
        Call::Acts { act, .. } => match act {
            PlainAct::Mark { .. } => Kind::Append,
            PlainAct::Stop => Kind::Stop,
            PlainAct::Restart => Kind::Restart,
            _ => Kind::Other,
        },
    }
}

/// The place of the message that comes, where the call is a delivery.
fn message_of(call: &Call<'_>) -> Option<usize> {
    match call {
        Call::Deliver { number } => Some(*number as usize),
        _ => None,
    }
}

/// The node of the call's event; none where it is the controller's, or a delivery of no message.
fn node_of(call: &Call<'_>, world: &World) -> Option<NodeId> {
    match call {
        Call::Elect { .. } => None,
        Call::Deliver { number } => world.addressee(*number as usize),
        other => Some(other.node()),
    }
}

/// The lane of a node, or of the controller.
fn lane_of(node: Option<NodeId>) -> u8 {
    match node {
        Some(node) => node.saturating_add(1),
        None => 0,
    }
}

/// What the event changed in the log of its node.
fn change_of(
    alloc: Global,
    nodes: &mut Vec<Seen>,
    count: NodeId,
    node: Option<NodeId>,
    world: &World,
) -> Result<Change, AllocError>
    requires { length world.now.nodes ≡ count }
{
    match node {
        Some(node) if node < count && usize::from(node) < nodes.len() => {
            look(alloc, &mut nodes[usize::from(node)], world.log(node))
        }
        _ => Ok(Change::none(alloc)),
    }
}

/// Whether the node is up.
fn is_up(node: NodeId, world: &World) -> bool {
    match world.nodes().get(usize::from(node)) {
        Some(broker) => match broker.status() {
            Status::Down => false,
            _ => true,
        },
        None => false,
    }
}

/// Notes that the node of this lane went down, or came up again, at this place, where it did.
fn note_life(
    nodes: &mut Vec<Seen>,
    lives: &mut Vec<Life>,
    place: usize,
    lane: u8,
    up: bool,
) -> Result<(), AllocError> {
    let at = usize::from(lane);
    if at == 0 || at > nodes.len() {
        return Ok(());
    }
    let seen = &mut nodes[at - 1];
    match seen.since {
        Some(from) if !up => {
            seen.since = None;
            lives.push(Life {
                lane,
                from,
                to: place,
            })?;
        }
        None if up => seen.since = Some(place),
        _ => {}
    }
    Ok(())
}

/// Notes that a message came, where one did, with an event that is drawn or not.
fn note_coming(messages: &mut Vec<Message>, came: Option<usize>, drawn: bool) {
    if let Some(number) = came
        && number < messages.len()
    {
        let message = &mut messages[number];
        message.comes = true;
        message.shown = message.shown || drawn;
    }
}

/// Notes the message that an event in this lane sent, where there is one more than before; tells its number.
fn note_sending(
    messages: &mut Vec<Message>,
    world: &World,
    from: u8,
    place: usize,
    drawn: bool,
) -> Result<Option<usize>, AllocError> {
    let number = messages.len();
    if number >= world.sent() {
        return Ok(None);
    }
    let to = lane_of(world.addressee(number));
    messages.push(Message {
        place,
        drawn,
        from,
        to,
        comes: false,
        shown: false,
    })?;
    Ok(Some(number))
}

/// Plays the event of this line, and keeps what is drawn of it. F33.
fn play_row(
    alloc: Global,
    next: &CountedLine<'_>,
    call: Call<'_>,
    count: NodeId,
    part: &Lines,
    world: &mut World,
    work: &mut Work,
    kept: &mut Kept,
) -> Result<(), Refusal>
    requires call { MayPlay world.old (seen_call call) }
    requires line { next.now.line.now ≡ call_text (seen_call call) }
    requires nodes { length world.old.nodes ≡ count }
    ensures adds { IfOk result (λ done. Adds part.now (next.now.number, seen_call call.entry) world.old world.new
        (titles_kept kept.old.rows.items) (titles_kept kept.new.rows.items)) }
    ensures nodes { length world.new.nodes ≡ length world.old.nodes }
    ensures first { world.new.first ≡ world.old.first }
    ensures only { IfErr result (λ refusal. refusal ≡ WantOfMemory) }
{
    let node = node_of(&call, world);
    let kind = kind_of(&call);
    let came = message_of(&call);
    let told = play_titled(alloc, next.number, next.line, call, world, work)?;
    let lane = lane_of(node);
    let place = kept.rows.len();
    let drawn = part.holds(next.number);
    let change = change_of(alloc, &mut kept.nodes, count, node, world)?;
    if let Some(node) = node {
        let up = is_up(node, world);
        note_life(&mut kept.nodes, &mut kept.lives, place, lane, up)?;
    }
    note_coming(&mut kept.messages, came, drawn);
    let sent = note_sending(&mut kept.messages, world, lane, place, drawn)?;
    if drawn {
        kept.rows.push(Row {
            title: told.title,
            call: next.line.len(),
            lane,
            kind,
            refused: told.refused,
            sent,
            came,
            change,
        })?;
    }
    Ok(())
}

/// Ends the lives of the nodes that are up.
fn note_end(nodes: &[Seen], lives: &mut Vec<Life>, place: usize) -> Result<(), AllocError> {
    let mut lane = 1u8;
    for seen in nodes {
        if let Some(from) = seen.since {
            lives.push(Life {
                lane,
                from,
                to: place,
            })?;
        }
        lane = lane.saturating_add(1);
    }
    Ok(())
}

/// Plays the events whose lines stand behind the header's, and keeps what is drawn of those whose lines are among these. F33.
pub(crate) fn play_rows(
    alloc: Global,
    header: &Header,
    first: &CountedLine<'_>,
    part: &Lines,
) -> Result<Kept, Refusal>
    requires header { IsHeader (seen_header header.now) }
    requires spelled { (calls : List (ℕ × SpelledCall))
        × Spells header.now.count (first.now.number + 1) first.now.rest.now calls }
    requires room { first.now.number + 1 + length first.now.rest.now < 2 ^ 64 }
    ensures stands { IfOk result (λ kept. (calls : List (ℕ × SpelledCall))
        → Spells header.now.count (first.now.number + 1) first.now.rest.now calls
        → (stage : Stage) × Stands part.now (seen_header header.now) calls stage (titles_kept kept.rows.items)) }
    ensures only { IfErr result (λ refusal. refusal ≡ WantOfMemory) }
{
    kp_script::lines_say_one_call();
    let mut world = World::start(alloc, header.count, &limits_of(header))?;
    let mut work = Work::new(alloc, Speller::new(alloc));
    let mut kept = Kept::start(alloc, header.count)?;
    let mut rest = first.rest;
    let mut number = first.number + 1;
    while let Ok(next) = next_counted(rest, number) {
        let Some(call) = call_of(next.line, header.count) else {
            unreachable!(); // each line is a call
        };
        play_row(
            alloc,
            &next,
            call,
            header.count,
            part,
            &mut world,
            &mut work,
            &mut kept,
        )?;
        rest = next.rest;
        number = next.number + 1;
    }
    let place = kept.rows.len();
    note_end(&kept.nodes, &mut kept.lives, place)?;
    Ok(kept)
}
