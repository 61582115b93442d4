//! Whether lists of committed batches agree.

ghost use Rattle.std.specs.Prelude.{◌≡◌, ◌⊎◌, ◌↔◌, ◌≤◌, All, Contains, IsTrue, [], length, map, unwrap_or};
ghost use Rattle.kp_crc.specs.Crc.{crc};
ghost use Rattle.kp_batch.specs.Batch.{covered};
ghost use Rattle.kp_model.specs.Beginning.{Begins};
ghost use Rattle.kp_model.specs.Log.{logged};
ghost use Rattle.kp_race.specs.Agreement.{AllAgree, committed_as};

use kp_batch::Batch;
use kp_types::{Epoch, Offset};

/// A batch below a node's high watermark, by its place and by the checksum of its bytes.
#[derive(Clone, Copy, PartialEq, Eq)]
pub(crate) struct Committed {
    pub(crate) base: Offset,
    pub(crate) epoch: Epoch,
    pub(crate) crc: u32,
}

impl Committed {
    /// A log's batch.
    pub(crate) fn of(batch: &Batch) -> Committed
        ensures { result ≡ committed_as (logged batch.now) }
    {
        Committed {
            base: batch.base_offset(),
            epoch: batch.leader_epoch().unwrap_or(0),
            crc: batch.crc(),
        }
    }
}

// The longest of the lists; an empty one where there is none.
fn longest_of(lists: &[Vec<Committed>]) -> &[Committed]
    ensures among { (result.now ≡ []) ⊎ Contains (map (λ list. list.items) lists.now) result.now }
    ensures longest { All (λ list. length list.items ≤ length result.now) lists.now }
{
    let mut longest: &[Committed] = &[];
    for list in lists {
        if longest.len() < list.len() {
            longest = list.as_slice();
        }
    }
    longest
}

// Whether a list begins another one.
fn begins(list: &[Committed], whole: &[Committed]) -> bool
    ensures { IsTrue result ↔ Begins list.now whole.now }
{
    whole.starts_with(list)
}

/// Whether of any two of these lists one begins the other: so does each with the longest.
pub(crate) fn do_agree(lists: &[Vec<Committed>]) -> bool
    ensures { IsTrue result ↔ AllAgree (map (λ list. list.items) lists.now) }
{
    let longest = longest_of(lists);
    for list in lists {
        if !begins(list.as_slice(), longest) {
            return false;
        }
    }
    true
}
