//! Each call once, with ample memory.
use crate::{CrashRow, CrashRows, LinkRow, LinkRows, Plan};
use crgc_ids::NodeId;
use std::test::Fail;

#[test]
fn each_row_is_used_once(rt: HostRuntime) -> Result<(), Fail> {
    let zero = NodeId::new(0).ok_or("node 0")?;
    let two = NodeId::new(2).ok_or("node 2")?;
    let row = LinkRow {
        from: two,
        to: zero,
        number: 7,
    };
    let mut losses = LinkRows::new(rt.alloc());
    losses.push(row)?;
    let repeats = losses.copy()?;
    assert!(rt; repeats.contains(&row));
    assert_eq!(rt;
        (repeats.len(), repeats.get(0), repeats.iter().count()),
        (1, Some(&row), 1)
    );
    let mut crashes = CrashRows::new(rt.alloc());
    crashes.push(CrashRow {
        node: two,
        after: 3,
    })?;
    let mut plan = Plan::new(losses, repeats, crashes);
    assert_eq!(rt;
        (plan.crash_after(two), plan.crash_after(zero)),
        (Some(3), None)
    );
    assert!(rt; !plan.loses(zero, two, 7));
    if plan.loses(two, zero, 7) {
        plan.use_loss(two, zero, 7);
    }
    assert!(rt; !plan.loses(two, zero, 7));
    if plan.repeats(two, zero, 7) {
        plan.use_repeat(two, zero, 7);
    }
    assert!(rt; !plan.repeats(two, zero, 7));
    Ok(())
}
