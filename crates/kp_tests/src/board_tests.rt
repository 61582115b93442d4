//! A board by itself: threads look and elect on it.

ghost use Rattle.std.specs.Prelude.{◌≡◌, ◌≤◌};

use crate::shown::unrefused;
use kp_board::{Board, BoardName, Opened, Pass};
use kp_control::pack;
use kp_types::{NodeId, Refusal};
use std::alloc::Global;
use std::marker::Brand;
use std::process::Abort;
use std::thread::{Threads, join};

const TRIES: u32 = 100;

// A board of so many nodes, at the start.
pub(crate) fn board_of(rt: &impl Abort, alloc: Global, nodes: NodeId) -> Opened
    requires { nodes ≤ 7 }
{
    match Opened::new(alloc, nodes) {
        Ok(opened) => opened,
        Err(refusal) => panic!(rt; "{refusal} in place of a board"),
    }
}

// How many of its tries to elect the node are answered by a record.
fn elections<B: BoardName>(board: &Board<B>, pass: &mut Pass<B>, node: NodeId) -> u32 {
    let mut elected = 0u32;
    for _ in 0..TRIES {
        if board.elect(pass, node).is_ok() {
            elected = elected.wrapping_add(1);
        }
    }
    elected
}

// The version that was shown last, of many looks.
fn last_version<B: BoardName>(board: &Board<B>, pass: &mut Pass<B>) -> u32 {
    let mut version = 0;
    for _ in 0..TRIES {
        version = board.record(pass).version;
    }
    version
}

// How many elections two threads got, one for each node, and the version at the end.
fn elect_by_two<B: BoardName + Send + Sync>(
    rt: &impl Threads,
    alloc: Global,
    opened: Opened,
) -> Result<(u32, u32), Refusal>
    requires { opened ≡ B.table }
{
    let (board, _passes, mut callers) = Board::<B>::new(alloc, opened)?;
    let mut zero = board.pass(&mut callers);
    let mut one = board.pass(&mut callers);
    let (elected, too) = join(
        rt,
        || elections(&board, &mut zero, 0),
        || elections(&board, &mut one, 1),
    );
    let version = board.record(&mut zero).version;
    Ok((elected.wrapping_add(too), version))
}

#[test]
fn elections_add_up(rt: HostRuntime) {
    let alloc = rt.alloc();
    let found = elect_by_two::<Brand>(&rt, alloc, board_of(&rt, alloc, 2));
    let (elected, version) = unrefused(&rt, found);
    assert_eq!(rt; elected, version);
    assert!(rt; version >= TRIES);
}

// The elections that one thread got while another one looked; the version that this one saw last, and that at the end.
fn look_and_elect<B: BoardName + Send + Sync>(
    rt: &impl Threads,
    alloc: Global,
    opened: Opened,
) -> Result<(u32, u32, u32), Refusal>
    requires { opened ≡ B.table }
{
    let (board, _passes, mut callers) = Board::<B>::new(alloc, opened)?;
    let mut voter = board.pass(&mut callers);
    let mut looker = board.pass(&mut callers);
    let (elected, seen) = join(
        rt,
        || elections(&board, &mut voter, 1),
        || last_version(&board, &mut looker),
    );
    let version = board.record(&mut looker).version;
    Ok((elected, seen, version))
}

#[test]
fn one_looks_while_another_elects(rt: HostRuntime) {
    let alloc = rt.alloc();
    let found = look_and_elect::<Brand>(&rt, alloc, board_of(&rt, alloc, 2));
    let (elected, seen, version) = unrefused(&rt, found);
    assert_eq!(rt; (elected, version), (TRIES, TRIES));
    assert!(rt; seen <= TRIES);
}

// The word of the record after one election of node 0.
fn word_after_an_election<B: BoardName>(alloc: Global, opened: Opened) -> Result<u64, Refusal>
    requires { opened ≡ B.table }
{
    let (board, _passes, mut callers) = Board::<B>::new(alloc, opened)?;
    let mut pass = board.pass(&mut callers);
    board.elect(&mut pass, 0)?;
    Ok(pack(&board.record(&mut pass)))
}

#[test]
fn a_board_shows_the_known_word(rt: HostRuntime) {
    let alloc = rt.alloc();
    let found = word_after_an_election::<Brand>(alloc, board_of(&rt, alloc, 2));
    assert_eq!(rt; found, Ok(0x0030_0000_1000_0001));
}
