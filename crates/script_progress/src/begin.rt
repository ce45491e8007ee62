//! The progress at the beginning of a script.
ghost use Rattle.std.specs.Prelude.{ℕ, ◌≡◌, ◌<◌, ◌≤◌, [], true, nat_lt, length, IfOk, List, OnOk, get_or};
ghost use Rattle.std.specs.List.{list_all};
ghost use Rattle.script_reader.specs.Valid.{Scripted};
ghost use Rattle.script_reader.specs.declared.script.Seed.{Seed as SeedRow};
ghost use Rattle.run_model.specs.Doing.{beginning};
ghost use Rattle.script_progress.specs.Used.{unused};
ghost use Rattle.script_progress.specs.Standing.{AreSeeded, IsProgressAt};

use crate::node::NodeProgress;
use crate::progress::Progress;
use crgc_ids::NoMemory;
use fault_plan::Plan;
use script_reader::{Seed, SeedList};
use std::alloc::Global;

impl Progress {
    /// Nothing of a script's plan is used: its nodes, its seeds, its plan, and how many turns may begin. Linear time in the
    /// seeds.
    pub fn begin(
        alloc: Global,
        nodes: u8,
        seeds: &SeedList,
        plan: Plan,
        turns: u32,
    ) -> Result<Progress, NoMemory>
        requires nodes { nodes ≤ 16 }
        requires few { length seeds.now ≤ 4096 }
        requires seeds { list_all (λ (x : SeedRow). nat_lt x.node nodes) seeds.now ≡ true }
        ensures { IfOk result (λ p. (s : Scripted) → s.nodes ≡ nodes → s.seeds ≡ seeds.now → s.plan ≡ plan → s.turns ≡ turns
            → IsProgressAt s (beginning s) p) }
    {
        let mut rows = new_nodes(alloc, nodes)?;
        add_seeds(&mut rows, seeds.as_slice())?;
        Ok(Progress {
            turns,
            begun: 0,
            ended: 0,
            nodes: rows,
            next_node: 0,
            next_serial: 0,
            plan,
        })
    }
}

/// Nodes without seeds.
fn new_nodes(alloc: Global, nodes: u8) -> Result<Vec<NodeProgress>, NoMemory>
    ensures { IfOk result (λ rows. (length rows.items ≡ nodes) × AreSeeded [] rows.items) }
{
    let mut rows = Vec::new(alloc);
    for _ in 0u8..nodes {
        if rows.push(NodeProgress::new(alloc)).is_err() {
            return Err(NoMemory);
        }
    }
    Ok(rows)
}

/// The seeds are put in, in order.
fn add_seeds(rows: &mut Vec<NodeProgress>, seeds: &[Seed]) -> Result<(), NoMemory>
    requires blank { AreSeeded [] rows.old.items }
    requires few { length seeds.now ≤ 4096 }
    requires seeds { list_all (λ (x : SeedRow). nat_lt x.node (length rows.old.items)) seeds.now ≡ true }
    ensures count { OnOk result (length rows.new.items ≡ length rows.old.items) }
    ensures seeded { OnOk result (AreSeeded seeds.now rows.new.items) }
{
    for seed in seeds {
        rows[seed.node.get() as usize].push(seed.wakes)?;
    }
    Ok(())
}
