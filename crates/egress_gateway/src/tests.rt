//! Each call once.
use crate::Egress;

#[test]
fn messages_are_numbered_from_0(rt: HostRuntime) {
    let mut egress = Egress::new();
    let first = egress.stamp();
    let second = egress.stamp();
    assert_eq!(rt; (first, second, egress.sent()), (0, 1, 2));
}
