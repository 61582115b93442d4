//! The texts in which is kept what a process left: of a node beside its log, and of the controller's record.
//! It stands on kp_types, kp_crc, kp_model's record and kp_words.
//! Its contract gives the layer above that what is written is the value's text, and that what is read is the value whose text it is.
#![tactic(auto)]

mod members;
mod printing;
mod records;
mod sealing;
mod starts;
mod states;
mod texts;

pub use printing::{push_record, push_state};
pub use records::record_of;
pub use states::state_of;
pub use texts::{EpochStart, RecordText, StateText, texts_say_one_value};
