//! The rule of the board, and its words.
use crate::opening::BoardKey;
use crate::views::SeatView;
use atomic_table::{Seat, Table, TableRule};
use std::alloc::Global;

/// The rule that each step on a word keeps, in any schedule: some run ends in just the world that the words and all passes
/// show (`Ruled`). Its key is what the board opened with. (Own rule.)
pub struct BoardRule;

impl TableRule<u8, SeatView, BoardKey> for BoardRule {
    ghost use Rattle.kp_board.specs.Views.{founder};
    ghost use Rattle.kp_board.specs.Rule.{Ruled};

    ghost holds = { λ o s. Ruled o s };

    ghost first = { λ o. founder 0 o 0 };
}

/// The words of a board under that rule.
pub type BoardTable = Table<u8, SeatView, BoardKey, BoardRule, Global>;

/// What steps on a board's words are made with. It has no bytes.
pub type BoardSeat = Seat<u8, SeatView>;
