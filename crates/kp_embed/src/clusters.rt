//! How a cluster, its nodes and passes are opened, and how a handle is closed.
ghost use Rattle.std.specs.Prelude.{◌≡◌, None, Result, IfErr, OnErr, OnOk};
ghost use Rattle.kp_handles.specs.Numbers.{done_number};
ghost use Rattle.kp_handles.specs.Opening.{BadBoard, BadCallerOpening, BadNodeOpening, IsCluster, OpensCaller, OpensNode};
ghost use Rattle.kp_handles.specs.Outs.{limits_in};
ghost use Rattle.kp_handles.specs.declared.misuse.Misuse.{Misuse};
ghost use Rattle.kp_handles.specs.declared.misuse.Misuse.TheVariants.{Closed};

use crate::answers::done;
use kp_board::Opened;
use kp_handles::{Handle, LimitsIn, Misuse, close, is_open, open, open_caller, open_node};
use kp_types::{Limits, MOST_NODES};
use std::alloc::Global;
use std::marker::Brand;

// Opens a board of so many nodes, under a name of which its table alone is known.
fn open_board(alloc: Global, cluster: &mut Handle, nodes: u8, limits: &Limits) -> Result<(), Misuse>
    ensures opened { OnOk result (IsCluster nodes limits.now cluster.new.object × (cluster.old.object ≡ None)) }
    ensures same { OnErr result (cluster.new ≡ cluster.old) }
    ensures only { IfErr result (BadBoard nodes cluster.old.object) }
{
    if nodes > MOST_NODES {
        return Err(Misuse::OutOfRange);
    }
    if is_open(cluster) {
        return Err(Misuse::InUse);
    }
    let Ok(opened) = Opened::new(alloc, nodes) else {
        return Err(Misuse::NoRoom);
    };
    match open::<Brand>(alloc, opened, limits, cluster) {
        Ok(()) => Ok(()),
        Err(_) => Err(Misuse::NoRoom),
    }
}

/// Opens a board of so many nodes.
#[unsafe(no_mangle)]
pub extern "C" fn kp_open(alloc: Global, cluster: &mut Handle, nodes: u8, limits: &LimitsIn) -> u32
    ensures called { (answer : Result (Unit {0}) Misuse) × (result ≡ done_number answer)
        × OnOk answer (IsCluster nodes (limits_in limits.now) cluster.new.object × (cluster.old.object ≡ None))
        × OnErr answer (cluster.new ≡ cluster.old) × IfErr answer (BadBoard nodes cluster.old.object) }
{
    done(open_board(alloc, cluster, nodes, &limits.limits()))
}

/// Opens the cluster's next node.
#[unsafe(no_mangle)]
pub extern "C" fn kp_open_node(alloc: Global, cluster: &mut Handle, node: &mut Handle) -> u32
    ensures called { (answer : Result (Unit {0}) Misuse) × (result ≡ done_number answer)
        × OnOk answer (OpensNode cluster.old.object cluster.new.object node.new.object × (node.old.object ≡ None) × (node.new.table ≡ cluster.old.table))
        × OnErr answer ((cluster.new.object ≡ cluster.old.object) × (node.new ≡ node.old))
        × IfErr answer (BadNodeOpening cluster.old.object node.old.object) }
    ensures table { cluster.new.table ≡ cluster.old.table }
{
    done(open_node::<Brand>(alloc, cluster, node))
}

/// Opens a new caller's pass of the cluster.
#[unsafe(no_mangle)]
pub extern "C" fn kp_open_pass(alloc: Global, cluster: &mut Handle, pass: &mut Handle) -> u32
    ensures called { (answer : Result (Unit {0}) Misuse) × (result ≡ done_number answer)
        × OnOk answer (OpensCaller cluster.old.object cluster.new.object pass.new.object × (pass.old.object ≡ None) × (pass.new.table ≡ cluster.old.table))
        × OnErr answer ((cluster.new.object ≡ cluster.old.object) × (pass.new ≡ pass.old))
        × IfErr answer (BadCallerOpening cluster.old.object pass.old.object) }
    ensures table { cluster.new.table ≡ cluster.old.table }
{
    done(open_caller::<Brand>(alloc, cluster, pass))
}

/// Closes a handle, with all that it holds.
#[unsafe(no_mangle)]
pub extern "C" fn kp_close(alloc: Global, handle: &mut Handle) -> u32
    ensures closed { handle.new.object ≡ None }
    ensures called { (answer : Result (Unit {0}) Misuse) × (result ≡ done_number answer)
        × OnErr answer (handle.new ≡ handle.old) × IfErr answer (λ why. (why ≡ Closed) × (handle.old.object ≡ None)) }
{
    done(close::<Brand>(alloc, handle))
}
