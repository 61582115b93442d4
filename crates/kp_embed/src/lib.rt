//! A static library by which services in C and Rust call the log: `embed/kpart.h` has its functions.
//! Each passes on what a call of kp_handles does, at a board that no type names, and answers its number.
//! Its contracts say of the handles what those of kp_handles say.
#![tactic(auto)]

mod again;
mod answers;
mod callers;
mod clusters;
mod describing;
mod finding;
mod holding;
mod messages;
mod nodes;
mod producing;
mod reading;
mod records;
mod segments;
mod telling;
mod texts;
