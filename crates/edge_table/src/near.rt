//! Edges that are looked for among the first of a list.
ghost use Rattle.std.specs.Prelude.{ℕ, IfNone, IfSome, take};
ghost use Rattle.crgc_ids.specs.Members.{IsAmong};
ghost use Rattle.edge_table.specs.declared.near.TheConstants.{NEAR};

/// How many edges from a place, and how many to one, are looked at before the ordered map is.
pub const NEAR: usize = 8;

/// The number of an edge that has this place at the other end, if one of the first of the list has. At most 8 looks at the list,
/// and none at an edge.
pub fn number_near(ends: &[(u32, u32)], place: u32) -> Option<u32>
    ensures number { IfSome result (λ n. IsAmong (place, n) ends.now) }
    ensures none { IfNone result ((n : ℕ) → IsAmong (place, n) (take NEAR ends.now) → ⊥) }
{
    for i in 0..ends.len().min(NEAR) {
        let (other, number) = ends[i];
        if other == place {
            return Some(number);
        }
    }
    None
}
