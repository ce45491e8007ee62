//! The whole input of a call.
ghost use Rattle.std.specs.Prelude.{◌≡◌, ◌≤◌, IfOk, IfErr};
ghost use Rattle.cluster_top.specs.Input.{GaveAll};
ghost use Rattle.cluster_top.specs.Refusals.{IsInputRefusal};

use crate::refusal::Refusal;
use crgc_ids::{MOST_BYTES, Which};
use crgc_io::{ReadAll, Source, read_all};
use std::alloc::Global;

/// All bytes of the source, or why they are not read.
pub fn input<S: Source>(alloc: Global, source: &mut S) -> Result<Vec<u8>, Refusal>
    ensures bytes { IfOk result (λ v. GaveAll S.left S.given S.ended S.faults source.old source.new v.items) }
    ensures refusal { IfErr result (λ r. IsInputRefusal S.left S.given S.faults source.old source.new r) }
    ensures never_falls { S.faults source.old ≤ S.faults source.new }
{
    match read_all(alloc, source, MOST_BYTES) {
        Ok(bytes) => Ok(bytes),
        Err(ReadAll::ReadFault) => Err(Refusal::ReadFault),
        Err(ReadAll::TooLong) => Err(Refusal::Limit(Which::Input)),
        Err(ReadAll::NoMemory) => Err(Refusal::NoMemory),
    }
}
