//! Laws of the definitions. Each function does nothing, and its contract is the law.
ghost use Rattle.std.specs.Prelude.{◌≡◌, ℕ, List};
ghost use Rattle.crgc_ids.specs.LostNodes.{lost_nodes, removed_nodes};
ghost use Rattle.crgc_ids.specs.Members.{IsPart};

/// Which nodes are removed and lost depends on the links alone, and not on their order or on how often each is named.
pub fn same_links_lose_the_same()
    ensures removed { (n : ℕ) (links more : List (ℕ × ℕ)) → IsPart links more → IsPart more links
        → removed_nodes n links ≡ removed_nodes n more }
    ensures lost { (n : ℕ) (links more : List (ℕ × ℕ)) → IsPart links more → IsPart more links → lost_nodes n links ≡ lost_nodes n more }
{}
