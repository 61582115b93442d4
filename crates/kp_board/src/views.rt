//! What a seat at the board's words shows.
use std::marker::Model;

/// Stands for what a seat shows, which is a `View` of the definitions. No value of it is made, and it costs nothing.
pub struct SeatView {
    hidden: (),
}

impl Model for SeatView {
    ghost use Rattle.kp_board.specs.Views.{View, spent};

    ghost Value = { View };

    ghost view = { λ _. spent };
}
