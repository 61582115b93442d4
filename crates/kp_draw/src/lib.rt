//! The run of a script as a picture: a lane a node and one for the controller, time downward, as SVG.
//! It stands on kp_script's playing of a line and on the counted devices of kp_types.
//! Its contract says that the picture is a tree of elements whose events are those of a run over the script, each once, in order.
#![tactic(auto)]

mod drawing;
mod layout;
mod lines;
mod looking;
mod picture;
mod playing;
mod rows;
mod shapes;
mod svg;

pub use drawing::draw_script;
pub use lines::Lines;
