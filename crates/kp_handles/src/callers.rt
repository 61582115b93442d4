//! Calls of a caller's pass, and of two.

ghost use Rattle.std.specs.Prelude.{◌≡◌, IfSome, Some};
ghost use Rattle.kp_handles.specs.CallerCalls.{ReceiptsTold};

use crate::calling::OfPass;
use crate::handle::{Handle, Unnamed, put, take_two};
use crate::misuse::Misuse;
use crate::object::{Kind, Object};
use kp_board::{Board, BoardName, Pass};
use kp_model::LeaderAndIsr;
use kp_types::{NodeId, Offset, Refusal};
use std::alloc::Global;

/// Tries once to elect the node, as by `Board::elect`.
#[derive(Drop)]
pub struct Elect {
    pub node: NodeId,
}

impl OfPass<LeaderAndIsr> for Elect {
    ghost use Rattle.kp_board.specs.Calls.{Elects};

    ghost gives = { λ e _ _. Elects e.node };

    fn ask<B: BoardName>(
        self,
        board: &Board<B>,
        pass: &mut Pass<B>,
    ) -> Result<LeaderAndIsr, Refusal> {
        board.elect(pass, self.node)
    }
}

/// Looks at the controller's record, as by `Board::record`.
#[derive(Drop)]
pub struct Leadership;

impl OfPass<LeaderAndIsr> for Leadership {
    ghost use Rattle.kp_board.specs.Calls.{Looks};
    ghost use Rattle.kp_handles.specs.CallerCalls.{Answers};

    ghost gives = { λ _ _ _ c d. Answers (Looks c d) };

    fn ask<B: BoardName>(
        self,
        board: &Board<B>,
        pass: &mut Pass<B>,
    ) -> Result<LeaderAndIsr, Refusal> {
        Ok(board.record(pass))
    }
}

/// Looks at a node's high watermark, as by `Board::watermark`; None where the board has no such node.
#[derive(Drop)]
pub struct Watermark {
    pub node: NodeId,
}

impl OfPass<Option<Offset>> for Watermark {
    ghost use Rattle.kp_handles.specs.CallerCalls.{Answers, LearnsMark};

    ghost gives = { λ w _ n c d. Answers (LearnsMark w.node n c d) };

    fn ask<B: BoardName>(
        self,
        board: &Board<B>,
        pass: &mut Pass<B>,
    ) -> Result<Option<Offset>, Refusal> {
        if self.node < board.nodes() {
            Ok(Some(board.watermark(pass, self.node)))
        } else {
            Ok(None)
        }
    }
}

/// Makes what a process that ended had promised a part of what the pass has seen, as by `Board::recall`.
#[derive(Drop)]
pub struct Recall;

impl OfPass<()> for Recall {
    ghost use Rattle.kp_board.specs.Plays.{Recalls};
    ghost use Rattle.kp_handles.specs.CallerCalls.{Answers};

    ghost gives = { λ _ table _ c d. Answers (λ _. Recalls table.opening.promised c d) };

    fn ask<B: BoardName>(self, board: &Board<B>, pass: &mut Pass<B>) -> Result<(), Refusal> {
        board.recall(pass);
        Ok(())
    }
}

fn tell_objects<B: BoardName>(one: &mut Object<B>, other: &mut Object<B>) -> Result<(), Misuse>
    ensures { ReceiptsTold (Some one.old) (Some one.new) (Some other.old) (Some other.new) result }
{
    match &mut one.kind {
        Kind::Caller(from) => match &mut other.kind {
            Kind::Caller(to) => {
                from.board.tell_receipts(&mut from.pass, &mut to.pass);
                Ok(())
            }
            _ => Err(Misuse::OtherKind),
        },
        _ => Err(Misuse::OtherKind),
    }
}

/// One caller's pass takes over the receipts of another one, as by `Board::tell_receipts`. Closed, OtherKind. O(1), and no memory.
#[tactic(auto, using(crate::proofs::Bad::told_called))]
pub fn tell_receipts<B: BoardName + Unnamed>(
    alloc: Global,
    from: &mut Handle,
    to: &mut Handle,
) -> Result<(), Misuse>
    requires from { IfSome from.old.object (λ _. from.old.table ≡ B.table) }
    requires to { IfSome to.old.object (λ _. to.old.table ≡ B.table) }
    ensures called { ReceiptsTold from.old.object from.new.object to.old.object to.new.object result }
    ensures cluster { (from.new.table ≡ from.old.table) × (to.new.table ≡ to.old.table) }
{
    let Some((mut first, mut second)) = take_two::<B>(alloc, from, to) else {
        return Err(Misuse::Closed);
    };
    let done = tell_objects(&mut first, &mut second);
    put(from, first);
    put(to, second);
    done
}
