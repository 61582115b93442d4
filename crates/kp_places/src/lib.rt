//! Which place each of a log's producers has, by the number that a client chose.
//! It stands on kp_types and on std's tree map.
//! The layer above keeps what it knows of a producer at that place, and finds it in a time that no choice of numbers spoils.
#![tactic(auto)]

mod places;

pub use places::Places;
