//! Scripts: their grammar, their run and the text of their traces. It stands on the nodes' world and on the
//! counted devices. Its contract says that what is written is the trace of a run of the definitions over the
//! events that the bytes spell, and that a faulty script is refused by its first faulty line.
#![tactic(auto)]

mod batches;
mod call;
mod digits;
mod ended;
mod fields;
mod left;
mod lines;
mod pipe;
mod reader;
mod run;
mod script;
mod section;
mod text;
mod trace;
mod words;

pub use call::{Call, GREATEST_TIME, Header, Sender, call_of, lines_say_one_call};
pub use ended::Ended;
pub use left::{CutRun, play_left};
pub use lines::{CountedLine, LONGEST_LINE, next_counted};
pub use pipe::{CutPipe, Piped, play_pipe};
pub use reader::LineReader;
pub use run::{Work, limits_of, play_line, play_script, run_script};
pub use script::{Line, MOST_EVENTS, Script, parse};
pub use section::Section;
pub use trace::push_trace;
