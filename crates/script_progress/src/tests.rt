//! The progress of small scripts.
ghost use Rattle.std.specs.Prelude.{◌≡◌, ◌∷◌, [], IfOk};

use crate::Progress;
use crgc_ids::{NoMemory, NodeId};
use fault_plan::{CrashRows, LinkRows, Plan};
use script_reader::{Seed, SeedList};
use std::alloc::Global;
use std::test::Fail;

/// One seed on that node, which is woken twice.
fn one_seed(alloc: Global, node: NodeId) -> Result<SeedList, NoMemory>
    ensures { IfOk result (λ l. l ≡ record { node = node; behaviour = 0; wakes = 2 } ∷ []) }
{
    let mut seeds = SeedList::new(alloc);
    seeds.push(Seed {
        node,
        behaviour: 0,
        wakes: 2,
    })?;
    Ok(seeds)
}

#[test]
fn wakes_are_used_one_by_one(rt: HostRuntime) -> Result<(), Fail> {
    let node = NodeId::new(0).ok_or("node 0")?;
    let seeds = one_seed(rt.alloc(), node)?;
    let plan = Plan::new(
        LinkRows::new(rt.alloc()),
        LinkRows::new(rt.alloc()),
        CrashRows::new(rt.alloc()),
    );
    let mut progress = Progress::begin(rt.alloc(), 1, &seeds, plan, 3)?;
    let actor = progress.candidate().ok_or("a candidate")?;
    if progress.is_within_budget() {
        progress.wakes(actor);
    }
    assert_eq!(rt; (progress.wakes_left(actor), progress.ended()), (1, 0));
    if progress.is_within_budget() {
        progress.takes();
    }
    assert!(rt; progress.is_within_budget() && !progress.crash_due(node));
    let same = progress.candidate().ok_or("a candidate")?;
    progress.pass(same);
    assert!(rt; progress.candidate().is_none());
    Ok(())
}
