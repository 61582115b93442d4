//! What a node does when it is its turn.

ghost use Rattle.kp_board.specs.Posts.{posts_of};
ghost use Rattle.kp_cluster.specs.Turn.{BringsUp, CatchesUp, AsksOrRaises, CatchesUpAndAsks, TakesTurn};

use kp_board::{BoardName, Message};
use kp_node::Node;
use kp_types::Refusal;

/// The node restarts if it is down: by `Node::restart`, whose F28 says that it is up, and no fault. (Own rule.)
pub fn bring_up<B: BoardName>(node: &mut Node<B>) -> Result<(), Refusal>
    ensures { BringsUp node.old node.new result }
{
    match node.restart() {
        Ok(_) | Err(Refusal::Down) => Ok(()),
        Err(refusal) => Err(refusal),
    }
}

// F22 says that it has taken up this record already.
fn catch_up<B: BoardName>(node: &mut Node<B>) -> Result<(), Refusal>
    ensures { CatchesUp node.old node.new result }
{
    match node.adopt() {
        Ok(_) | Err(Refusal::StaleRecord) => Ok(()),
        Err(refusal) => Err(refusal),
    }
}

// F15 says that it follows nobody, or that it doesn't lead.
fn ask_or_raise<B: BoardName>(node: &mut Node<B>) -> Result<Option<Message<B>>, Refusal>
    ensures { AsksOrRaises node.old node.new (posts_of result) }
{
    match node.ask() {
        Ok(message) => Ok(Some(message)),
        Err(Refusal::NotLeader) => match node.raise() {
            Ok(_) | Err(Refusal::NotLeader) => Ok(None),
            Err(refusal) => Err(refusal),
        },
        Err(refusal) => Err(refusal),
    }
}

fn catch_up_and_ask<B: BoardName>(node: &mut Node<B>) -> Result<Option<Message<B>>, Refusal>
    ensures { CatchesUpAndAsks node.old node.new (posts_of result) }
{
    catch_up(node)?;
    ask_or_raise(node)
}

/// The node restarts if it is down, takes up the controller's record, and then asks the leader that it follows, or raises its
/// high watermark if it leads: the calls of `Node` of these names, of which the first that is refused is the last. No refusal is
/// F28 of a node that is up, F22 of a record that is no news, F15 of a node that follows nobody or doesn't lead. (Own rule.)
pub fn take_turn<B: BoardName>(node: &mut Node<B>) -> Result<Option<Message<B>>, Refusal>
    ensures { TakesTurn node.old node.new (posts_of result) }
{
    bring_up(node)?;
    catch_up_and_ask(node)
}
