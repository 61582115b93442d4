//! What a caller's bytes are: the batches that they begin with, and their checksum.
ghost use Rattle.std.specs.Prelude.{◌≡◌, Result};
ghost use Rattle.kp_types.specs.declared.refusal.Refusal.{Refusal};
ghost use Rattle.kp_crc.specs.Crc.{crc};
ghost use Rattle.kp_handles.specs.Finding.{BatchesCalled};
ghost use Rattle.kp_handles.specs.Numbers.{answer_number};
ghost use Rattle.kp_handles.specs.Outs.{WritesOut};
ghost use Rattle.kp_handles.specs.declared.finding.FoundOut.{FoundOut};
ghost use Rattle.kp_handles.specs.declared.misuse.Misuse.{Misuse};

use crate::answers::told;
use kp_crc::crc32c;
use kp_handles::{FoundOut, Handle, find_batches};
use std::alloc::Global;
use std::marker::Brand;

/// Puts the batches that bytes begin with, up to the first fault, into a closed handle.
#[unsafe(no_mangle)]
pub extern "C" fn kp_batches_in(
    alloc: Global,
    bytes: &[u8],
    max_batch: u32,
    batches: &mut Handle,
    found: &mut FoundOut,
) -> u32
    ensures called { (answer : Result (Result FoundOut Refusal) Misuse) × (result ≡ answer_number answer)
        × BatchesCalled max_batch bytes.now batches.old.object batches.new.object answer
        × WritesOut (λ out. out) answer found.old found.new }
{
    told(
        find_batches::<Brand>(alloc, bytes, max_batch, batches),
        found,
    )
}

/// The CRC-32C of bytes.
#[unsafe(no_mangle)]
pub extern "C" fn kp_crc32c(bytes: &[u8]) -> u32
    ensures { result ≡ crc bytes.now }
{
    crc32c(bytes)
}
