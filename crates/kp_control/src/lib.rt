//! What the controller does with its record, and the record as one word.
//! It stands on kp_types' numbers and refusals and on kp_model's record and definitions.
//! The layer above sees the definitions' record: an election or a decision is theirs, or is refused by the first of their causes.
#![tactic(auto)]

mod deciding;
mod electing;
mod word;

pub use deciding::decided;
pub use electing::elected;
pub use word::{pack, unpack, words_are_one};
