//! A script run on what another run has left in a folder.

ghost use Rattle.kp_cli.specs.Left.{KeepsLeft, PerformsLeft};

use crate::devices::{Explained, LeftSource};
use crate::running::{FileCall, KeptCall, end};
use crate::telling::{refuse_folder, refuse_path, refuse_since};
use kp_script::{CutRun, play_left};
use kp_types::{Counted, Folder};
use std::alloc::Global;
use std::io::{Read, Write};

/// Runs a script on what the folder at this path has, once it is entered.
#[derive(Drop)]
pub(crate) struct PlayLeft<'a, L> {
    pub(crate) left: L,
    pub(crate) from: &'a str,
}

impl<'a, L: LeftSource + Drop, R: Read + Explained, W: Write, E: Write> FileCall<R, W, E>
    for PlayLeft<'a, L> {
    ghost leaves = { λ call path. PerformsLeft
        (record { remaining = R.remaining; file_fault = R.fault_is; held = W.contents; told = E.contents })
        (record { enters = L.enters; files = L.files; left_fault = L.fault_is }) call.left call.from.now path };

    fn read(
        self,
        alloc: Global,
        path: &str,
        reader: &mut Counted<R>,
        out: &mut Counted<W>,
        err: &mut Counted<E>,
    ) -> u8 {
        let PlayLeft { left, from } = self;
        let mut left = left;
        if let Err(fault) = left.enter(from) {
            return refuse_path(err, from, fault);
        }
        let faults = reader.faults();
        match play_left(alloc, reader, &mut left, out) {
            Ok(ended) => end(ended.refused(), ended),
            Err(CutRun::Run(refusal)) => refuse_since(err, refusal, path, reader, faults),
            Err(CutRun::Folder(fault)) => refuse_folder(err, from, left.fault(), fault),
        }
    }
}

impl<
    'a,
    L: LeftSource + Drop,
    R: Read + Explained,
    K: Folder + Explained,
    W: Write,
    E: Write,
> KeptCall<R, K, W, E> for PlayLeft<'a, L> {
    ghost keeps = { λ call path keep. KeepsLeft
        (record { remaining = R.remaining; file_fault = R.fault_is; held = W.contents; told = E.contents })
        (record { enters = L.enters; files = L.files; left_fault = L.fault_is })
        (record { entries = K.entries; folder_fault = K.fault_is }) call.left call.from.now path keep };

    fn keep(
        self,
        alloc: Global,
        path: &str,
        keep: &str,
        reader: &mut Counted<R>,
        folder: &mut Counted<K>,
        out: &mut Counted<W>,
        err: &mut Counted<E>,
    ) -> u8 {
        let PlayLeft { left, from } = self;
        let mut left = left;
        if let Err(fault) = left.enter(from) {
            return refuse_path(err, from, fault);
        }
        let read = reader.faults();
        let put = folder.faults();
        match play_left(alloc, reader, &mut left, out) {
            Ok(ended) => match ended.write_left(alloc, folder) {
                Ok(()) => end(ended.refused(), ended),
                Err(refusal) => refuse_since(err, refusal, keep, folder, put),
            },
            Err(CutRun::Run(refusal)) => refuse_since(err, refusal, path, reader, read),
            Err(CutRun::Folder(fault)) => refuse_folder(err, from, left.fault(), fault),
        }
    }
}
