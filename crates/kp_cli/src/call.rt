//! What the program can be asked to do.

use kp_race::Plan;
use kp_types::NodeId;

/// What the command line asks for.
#[derive(Drop)]
pub enum Call {
    /// Run the script at the path `file` and print its trace.
    Run {
        /// The path of the script, as it was written.
        file: String,
        /// The path of the folder that another run has left, as it was written, if its nodes go on.
        from: Option<String>,
        /// The path of the folder that what the nodes leave is kept in, as it was written, if it is.
        keep: Option<String>,
    },
    /// Read the log at the path `file` and print its dump.
    Inspect {
        /// The path of the log's bytes, as it was written.
        file: String,
        /// The most bytes of a segment that has more than one batch, from 1,024 to 1,073,741,824.
        segment_bytes: u32,
        /// How many bytes lie between two entries of an index, up to 1,048,576.
        index_interval: u32,
    },
    /// Run the script at the path `file` and print the picture of its run.
    Draw {
        /// The path of the script, as it was written.
        file: String,
        /// The number of the first line that is drawn, from 1.
        from: u32,
        /// The number of the last line that is drawn.
        to: u32,
    },
    /// Play a script whose lines come one by one on standard input, and answer each at once.
    Pipe {
        /// The path of the folder that what the nodes leave is kept in, as it was written, if it is.
        keep: Option<String>,
    },
    /// Run a race of nodes, producers and elections, each in a thread of its own, and print what came of it.
    Race {
        /// How many nodes there are, from 1 to 7.
        nodes: NodeId,
        /// From 1 to 8 producers, of 0 to 10,000 batches each, and 0 to 1,000 elections.
        plan: Plan,
    },
}
