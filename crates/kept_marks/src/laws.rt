//! Laws of the definitions. Each function does nothing, and its contract is the law.
ghost use Rattle.std.specs.Prelude.{◌≡◌};
ghost use Rattle.place_marks.specs.Graph.{Graph, IsGraph};
ghost use Rattle.kept_marks.specs.Kept.{IsKept, IsTouched, Kept, nothing_kept};

/// Over a graph without places nothing is kept.
pub fn nothing_is_kept()
    ensures { (g : Graph) → IsGraph g → g.places ≡ 0 → IsKept g nothing_kept }
{}

/// What is kept stays right as the graph changes, where each new place is touched, and each whose mark the change does not spare.
pub fn marks_stay_kept()
    ensures { (old new : Graph) (before after : Kept) → IsKept old before → IsGraph new → IsTouched old new before after → IsKept new after }
{}
