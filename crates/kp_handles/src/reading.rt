//! What a node tells a caller of what is committed.

ghost use Rattle.std.specs.Prelude.{◌≡◌};
ghost use Rattle.kp_handles.specs.Outs.{isolation_in};

use crate::calling::GivenByPair;
use crate::object::{Kind, Object};
use kp_board::{BoardName, Pass};
use kp_node::{Isolation, Node};
use kp_types::{Offset, Refusal};

/// What a consumer asks to be shown.
pub fn isolation_in(read_committed: bool) -> Isolation
    ensures { result ≡ isolation_in read_committed }
{
    if read_committed {
        Isolation::ReadCommitted
    } else {
        Isolation::ReadUncommitted
    }
}

/// Committed batches, as by `Node::read`.
#[derive(Drop)]
pub struct Read {
    pub from: Offset,
}

impl GivenByPair for Read {
    ghost use Rattle.std.specs.Global.{Vec};
    ghost use Rattle.kp_batch.specs.Batch.{Written};
    ghost use Rattle.kp_node.specs.CallerCalls.{Reads};
    ghost use Rattle.kp_handles.specs.Objects.{batches};

    ghost Found = { Vec Written };

    ghost held = { λ read. batches read.items };

    ghost gives = { λ r. Reads r.from };

    fn ask<B: BoardName>(
        self,
        node: &mut Node<B>,
        pass: &mut Pass<B>,
    ) -> Result<Object<B>, Refusal> {
        match node.read(pass, self.from) {
            Ok(read) => Ok(Object {
                kind: Kind::Batches(read),
            }),
            Err(refusal) => Err(refusal),
        }
    }
}

/// The records that a read-committed consumer gets, as by `Node::committed`.
#[derive(Drop)]
pub struct ReadCommitted {
    pub from: Offset,
}

impl GivenByPair for ReadCommitted {
    ghost use Rattle.std.specs.Prelude.{List};
    ghost use Rattle.kp_model.specs.Event.{Line};
    ghost use Rattle.kp_node.specs.CallerCalls.{ReadsCommitted};
    ghost use Rattle.kp_handles.specs.Objects.{records};

    ghost Found = { List Line };

    ghost held = { records };

    ghost gives = { λ r. ReadsCommitted r.from };

    fn ask<B: BoardName>(
        self,
        node: &mut Node<B>,
        pass: &mut Pass<B>,
    ) -> Result<Object<B>, Refusal> {
        match node.committed(pass, self.from) {
            Ok(read) => Ok(Object {
                kind: Kind::Records(read),
            }),
            Err(refusal) => Err(refusal),
        }
    }
}

/// What a consumer fetches, as by `Node::fetch`.
#[derive(Drop)]
pub struct Fetch {
    pub from: Offset,
    pub most_bytes: u32,
    pub isolation: Isolation,
}

impl GivenByPair for Fetch {
    ghost use Rattle.kp_node.specs.Fetched.{FetchedView};
    ghost use Rattle.kp_node.specs.Fetches.{Fetches};
    ghost use Rattle.kp_handles.specs.Objects.{fetched};

    ghost Found = { FetchedView };

    ghost held = { fetched };

    ghost gives = { λ f. Fetches f.from f.most_bytes f.isolation };

    fn ask<B: BoardName>(
        self,
        node: &mut Node<B>,
        pass: &mut Pass<B>,
    ) -> Result<Object<B>, Refusal> {
        match node.fetch(pass, self.from, self.most_bytes, self.isolation) {
            Ok(read) => Ok(Object {
                kind: Kind::Fetched(read),
            }),
            Err(refusal) => Err(refusal),
        }
    }
}
