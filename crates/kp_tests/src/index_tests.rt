//! Comparisons of a look-up in an index, and the laws that cost nothing.

use crate::shown::is;
use kp_time_index::{TimeEntry, TimeIndex};
use kp_types::Refusal;
use std::alloc::Global;

// How many entries are compared for the first of so many, and how many for the last.
fn comparisons(alloc: Global, counts: &[u64]) -> Result<String, Refusal> {
    let mut text = String::new(alloc);
    for count in counts {
        let mut index = TimeIndex::new(alloc);
        for timestamp in 0..*count {
            let _ = index.note(TimeEntry {
                timestamp,
                relative_offset: 0,
                walk_from: 0,
            })?;
        }
        let first = index.floor(0).comparisons;
        let last = index.floor(u64::MAX).comparisons;
        write!(text, "{count}: {first} {last}, ")?;
    }
    Ok(text)
}

// Of seven the middle one is compared, and of the three that are left, and the one that is left. Of eight the fourth
// is compared first, and four are left, below it or above it: one comparison more.
#[test]
fn each_comparison_halves_the_entries(rt: HostRuntime) {
    let want = "0: 0 0, 1: 1 1, 7: 3 3, 8: 4 4, ";
    is(&rt, comparisons(rt.alloc(), &[0, 1, 7, 8]), want);
}

// Each is a public call: it takes nothing, and its contract is a law.
#[test]
fn the_laws_hold() {
    kp_crc::remainder_is_the_rest();
    kp_record::spellings_stand_apart();
    kp_record::records_are_exact();
    kp_batch::batches_stand_apart();
    kp_batch::bytes_are_judged_once();
    kp_batch::batches_are_framed();
    kp_model::runs_are_safe();
    kp_producers::tables_are_one();
    kp_txns::tables_are_one();
    kp_visible::aborted_records_are_hidden();
    kp_visible::committed_records_are_visible();
    kp_replica::bytes_are_an_offer();
    kp_world::events_are_told();
    kp_script::lines_say_one_call();
}
