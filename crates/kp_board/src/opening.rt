//! What a board opens with, as its words' table is told it.
//!
//! What a run has left stands in no argument: a caller names it by the ghost member of `Left`, at `Brand`.
ghost use Rattle.std.specs.Prelude.{◌≡◌, IfOk, IfErr};
ghost use Rattle.kp_types.specs.declared.refusal.Refusal.TheVariants.{Memory};
ghost use Rattle.kp_model.specs.Left.{beginning};

use atomic_table::{Play, Seat, Table, TableRule};
use kp_types::{NodeId, Refusal};
use std::alloc::Global;
use std::marker::{Brand, Model, PhantomData};

/// What a run left. It costs nothing.
pub trait Left {
    ghost use Rattle.kp_model.specs.Left.{Opening};

    ghost opening: { Opening };
}

impl Left for Brand {
    ghost use Rattle.kp_model.specs.Left.{beginning};

    ghost opening = { beginning 0 };
}

/// Stands for what a board opens with. No value of it is made, and it costs nothing.
pub struct OpeningView {
    hidden: (),
}

impl Model for OpeningView {
    ghost use Rattle.kp_model.specs.Left.{Opening, beginning};

    ghost Value = { Opening };

    ghost view = { λ _. beginning 0 };
}

// Nothing is kept.
struct NoRule;

impl TableRule<u8, OpeningView, ()> for NoRule {
    ghost use Rattle.kp_model.specs.Left.{beginning};

    ghost holds = { λ _ _. Unit {0} };

    ghost first = { λ _. beginning 0 };
}

// What was left is named.
struct Names<E> {
    what: PhantomData<E>,
}

impl<E: Left> Play<u8, OpeningView> for Names<E> {
    ghost use Rattle.kp_board.specs.Opening.{Named};

    ghost then = { Named E.opening };
}

// It has no bytes.
#[derive(Drop)]
struct Behind {
    seat: Seat<u8, OpeningView>,
}

impl Model for Behind {
    ghost use Rattle.kp_model.specs.Left.{Opening};

    ghost Value = { Opening };

    ghost view = { λ b. b.seat.me.0 };
}

/// What a board opens with: the start of a run of so many nodes, or what a run has left. It has few bytes.
#[derive(Drop)]
pub struct BoardKey {
    nodes: NodeId,
    left: Option<Behind>,
}

impl Model for BoardKey {
    ghost use Rattle.kp_board.specs.Opening.{opened_by};
    ghost use Rattle.kp_model.specs.Left.{Opening};

    ghost Value = { Opening };

    ghost view = { λ k. opened_by k.nodes k.left };
}

impl BoardKey {
    /// The start of a run of so many nodes. O(1).
    pub(crate) fn beginning(nodes: NodeId) -> BoardKey
        ensures { result ≡ beginning nodes }
    {
        BoardKey { nodes, left: None }
    }

    /// What a run has left. F33 is the only refusal, of one word of memory, which is let go at once.
    pub(crate) fn of<E: Left>(alloc: Global) -> Result<BoardKey, Refusal>
        ensures named { IfOk result (λ k. k ≡ E.opening) }
        ensures only { IfErr result (λ refusal. refusal ≡ Memory) }
    {
        let words = [0u64; 1];
        let (table, mut seat) = Table::<u8, OpeningView, (), NoRule, Global>::of_words(
            alloc,
            &words,
            &(),
        )?;
        table.shared.load::<Names<E>>(&mut seat, 0);
        Ok(BoardKey {
            nodes: 0,
            left: Some(Behind { seat }),
        })
    }
}
