//! Calls of a node alone.

use crate::calling::OfNode;
use kp_board::BoardName;
use kp_node::Node;
use kp_replica::{Answer, Role};
use kp_types::{Offset, Refusal};

/// The node takes up the controller's record, as by `Node::adopt`.
#[derive(Drop)]
pub struct Adopt;

impl OfNode<Role> for Adopt {
    ghost use Rattle.kp_node.specs.NodeCalls.{Adopts};

    ghost gives = { λ _. Adopts };

    fn ask<B: BoardName>(self, node: &mut Node<B>) -> Result<Role, Refusal> {
        node.adopt()
    }
}

/// The node raises its high watermark, as by `Node::raise`.
#[derive(Drop)]
pub struct Raise;

impl OfNode<Offset> for Raise {
    ghost use Rattle.kp_node.specs.NodeCalls.{Raises};

    ghost gives = { λ _. Raises };

    fn ask<B: BoardName>(self, node: &mut Node<B>) -> Result<Offset, Refusal> {
        node.raise()
    }
}

/// The node notes its high watermark, as by `Node::checkpoint`.
#[derive(Drop)]
pub struct Checkpoint;

impl OfNode<Offset> for Checkpoint {
    ghost use Rattle.kp_node.specs.NodeCalls.{Checkpoints};

    ghost gives = { λ _. Checkpoints };

    fn ask<B: BoardName>(self, node: &mut Node<B>) -> Result<Offset, Refusal> {
        node.checkpoint()
    }
}

/// The node stops, as by `Node::stop`.
#[derive(Drop)]
pub struct Stop;

impl OfNode<()> for Stop {
    ghost use Rattle.kp_node.specs.NodeCalls.{Stops};

    ghost gives = { λ _. Stops };

    fn ask<B: BoardName>(self, node: &mut Node<B>) -> Result<(), Refusal> {
        node.stop()
    }
}

/// The node starts again, as by `Node::restart`.
#[derive(Drop)]
pub struct Restart;

impl OfNode<Answer> for Restart {
    ghost use Rattle.kp_node.specs.NodeCalls.{Restarts};

    ghost gives = { λ _. Restarts };

    fn ask<B: BoardName>(self, node: &mut Node<B>) -> Result<Answer, Refusal> {
        node.restart()
    }
}
