//! The text of a generated script.
ghost use Rattle.std.specs.Prelude.{◌≡◌, ◌<◌, ◌≤◌, ◌%◌, ◌++◌, OnOk, string_bytes, IfOk, IsUtf8, length, flat_map};
ghost use Rattle.std.specs.List.{enumerate_from};
ghost use Rattle.script_reader.specs.Scripts.{StandsFor};
ghost use Rattle.workload_gen.specs.Makers.{makers};
ghost use Rattle.workload_gen.specs.Scripts.{workload_script};
ghost use Rattle.workload_gen.specs.Texts.{pieces, seed_text, tie_text, workload_text};

use crate::makers::{Maker, makers};
use crate::texts::{HEAD, MIDDLE, SEED_NODE, SEED_WAKES, TAIL, TIE_FROM, TIE_TO};
use crgc_ids::{NoMemory, Octets};
use std::alloc::{AllocError, Global};
use std::fmt::Write;

/// The script of this number, with so many wakes of the makers in all, as JSON text that ends with a line feed. Linear
/// time in the text.
pub fn generate(alloc: Global, seed: u64, size: u32) -> Result<Octets, NoMemory>
    requires some { 1 ≤ size }
    requires in_range { size ≤ 10000 }
    ensures text { IfOk result (λ t. t ≡ workload_text seed size) }
    ensures stands { IfOk result (λ t. StandsFor t (workload_script seed size)) }
{
    match script_text(alloc, seed, size) {
        Ok(text) => Ok(Octets::from_vec(text.into_bytes())),
        Err(_) => Err(NoMemory),
    }
}

fn script_text(alloc: Global, seed: u64, size: u32) -> Result<String, AllocError>
    requires { size ≤ 10000 }
    ensures text { IfOk result (λ t. string_bytes t ≡ pieces (makers (seed % 65536) size)) }
    ensures utf8 { IfOk result (λ t. IsUtf8 (string_bytes t)) }
{
    let makers = makers(alloc, seed, size)?;
    let mut text = String::from_str(alloc, HEAD)?;
    push_seeds(&mut text, makers.as_slice())?;
    text.push_str(MIDDLE)?;
    push_ties(&mut text, makers.as_slice())?;
    text.push_str(TAIL)?;
    Ok(text)
}

/// The seeds of the makers.
fn push_seeds(text: &mut String, makers: &[Maker]) -> Result<(), AllocError>
    ensures { OnOk result (string_bytes text.new ≡ string_bytes text.old ++ flat_map seed_text makers.now) }
{
    for i in 0..makers.len() {
        push_seed(text, makers[i])?;
    }
    Ok(())
}

fn push_seed(text: &mut String, maker: Maker) -> Result<(), AllocError>
    ensures { OnOk result (string_bytes text.new ≡ string_bytes text.old ++ seed_text maker) }
{
    text.push_str(SEED_NODE)?;
    let node = maker.node;
    write!(text, "{node}")?;
    text.push_str(SEED_WAKES)?;
    let wakes = maker.wakes;
    write!(text, "{wakes}}}")
}

/// The ties of the makers to their friends.
fn push_ties(text: &mut String, makers: &[Maker]) -> Result<(), AllocError>
    requires { length makers.now ≤ 16 }
    ensures { OnOk result (string_bytes text.new ≡ string_bytes text.old ++ flat_map tie_text (enumerate_from 0 makers.now)) }
{
    for (j, maker) in makers.iter().enumerate() {
        push_tie(text, j as u32, *maker)?;
    }
    Ok(())
}

fn push_tie(text: &mut String, j: u32, maker: Maker) -> Result<(), AllocError>
    requires { j < 16 }
    ensures { OnOk result (string_bytes text.new ≡ string_bytes text.old ++ tie_text (j, maker)) }
{
    if j > 0 {
        text.push_str(",")?;
    }
    text.push_str(TIE_FROM)?;
    let from = 4 + j;
    write!(text, "{from}")?;
    text.push_str(TIE_TO)?;
    let to = maker.friend;
    write!(text, "{to}}}")
}
