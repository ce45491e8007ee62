//! The command `gen`.
ghost use Rattle.std.specs.Prelude.{◌≡◌, ◌≤◌, IfOk, IfErr};
ghost use Rattle.cluster_top.specs.declared.refusal.Refusal.TheVariants.{NoMemory as OutOfMemory};
ghost use Rattle.workload_gen.specs.Texts.{workload_text};

use crate::refusal::Refusal;
use crgc_ids::NoMemory;
use std::alloc::Global;
use workload_gen::generate;

/// The text of the script of this seed and size, or that memory ran out.
pub fn generated(alloc: Global, seed: u64, size: u32) -> Result<Vec<u8>, Refusal>
    requires some { 1 ≤ size }
    requires in_range { size ≤ 10000 }
    ensures text { IfOk result (λ v. v.items ≡ workload_text seed size) }
    ensures refusal { IfErr result (λ r. r ≡ OutOfMemory) }
{
    match generate(alloc, seed, size) {
        Ok(text) => Ok(text.into_vec()),
        Err(NoMemory) => Err(Refusal::NoMemory),
    }
}
