//! The program `kpart`: hands its words, a file and two folders of the host and its three standard streams to `kp_cli`, and exits with the
//! status that this answers. It stands on `kp_cli` alone, whose `main_with` has the contract of all that happens here.
//! Its own contract is none: what it hands over is the host's, and a check of the built program shows that.
#![tactic(auto)]

ghost use Rattle.std.specs.Prelude.{◌≤◌};

use kp_cli::{Fault, HostFile, HostFolder, HostLeft, main_with};
use kp_race::{Outcome, Plan, race_over_channels};
use kp_types::{Counted, NodeId, Refusal};
use std::env;
use std::fs::{self, File};
use std::io::{self, ErrorKind};
use std::process::ExitCode;

/// Opens the root folder, which can be neither read nor written as a file and takes the lowest descriptor that is free: three of them
/// leave no standard one closed, and one that was closed still fails.
fn nothing(rt: &HostRuntime) -> io::Result<File> {
    fs::open(rt, "/")
}

/// The words of the command line, the first of which is the program's name.
fn words(rt: &HostRuntime) -> Result<Vec<String>, Fault> {
    match env::args(rt) {
        Ok(words) => match words.collect(rt.alloc()) {
            Ok(words) => Ok(words),
            Err(_) => Err(Fault::OutOfMemory),
        },
        Err(error) if error.kind() == ErrorKind::InvalidData => Err(Fault::NotText),
        Err(error) => Err(Fault::of(&error)),
    }
}

fn main(rt: HostRuntime) -> ExitCode {
    let held = (nothing(&rt), nothing(&rt), nothing(&rt));
    let mut out = Counted::new(rt.stdout());
    let mut err = Counted::new(rt.stderr());
    let file = HostFile::new(&rt);
    let left = HostLeft::new(&rt);
    let folder = HostFolder::new(&rt);
    let races = |nodes: NodeId, plan: Plan| -> Result<Outcome, Refusal>
        requires { nodes ≤ 7 }
    { race_over_channels(&rt, rt.alloc(), nodes, &plan) };
    let left = main_with(
        rt.alloc(),
        words(&rt),
        file,
        left,
        folder,
        rt.stdin(),
        races,
        &mut out,
        &mut err,
    );
    drop(held);
    ExitCode::from(left.status)
}
