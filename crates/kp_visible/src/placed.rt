//! The records of one batch, each with its offset.

ghost use Rattle.std.specs.Prelude.{◌≡◌, ◌+◌, ◌≤◌, ◌^◌, length, []};
ghost use Rattle.std.specs.Option.{option_map_or};
ghost use Rattle.kp_batch.specs.Lent.{records_left};

use kp_batch::{Batch, Record, Records};
use kp_types::Offset;

// The records that are left of a batch, or none.
#[derive(Clone, Copy)]
pub(crate) struct PlacedRecords<'a> {
    offset: Offset,
    records: Option<Records<'a>>,
    ghost within: { offset + length (option_map_or records_left records []) ≤ 2 ^ 62 },
}

impl<'a> PlacedRecords<'a> {
    ghost use Rattle.kp_model.specs.Log.{logged, next_offset};
    ghost use Rattle.kp_model.specs.Visible.{records_in};
    ghost use Rattle.std.specs.Prelude.{◌∷◌};
    ghost use Rattle.kp_visible.specs.Lent.{placed_left};

    // None.
    pub(crate) fn none() -> PlacedRecords<'a>
        ensures { placed_left result ≡ [] }
    {
        PlacedRecords {
            offset: 0,
            records: None,
        }
    }

    // All those of a batch.
    pub(crate) fn of(batch: &'a Batch) -> PlacedRecords<'a>
        requires { next_offset (logged batch.now) ≤ 2 ^ 62 }
        ensures { placed_left result ≡ records_in (logged batch.now ∷ []) }
    {
        PlacedRecords {
            offset: batch.base_offset(),
            records: Some(batch.records()),
        }
    }
}

impl<'a> Iterator for PlacedRecords<'a> {
    type Item = (Offset, Record<'a>);

    ghost use Rattle.std.specs.Iterator.{YieldsFirstBy, item_count};
    ghost use Rattle.kp_visible.specs.Lent.{lent_at, placed_left};

    ghost next_gives = { YieldsFirstBy lent_at placed_left };

    ghost remaining = { item_count placed_left };

    fn next(&mut self) -> Option<(Offset, Record<'a>)> {
        let mut records = self.records?;
        let record = records.next()?;
        let offset = self.offset;
        *self = PlacedRecords {
            offset: offset + 1,
            records: Some(records),
        };
        Some((offset, record))
    }
}
