//! How many actors are known.
ghost use Rattle.std.specs.Prelude.{◌≡◌, count_by};
ghost use Rattle.shadow_graph.specs.Seen.{is_known};

use super::ShadowGraph;

impl ShadowGraph {
    /// How many actors were named and not dropped. Constant time.
    pub fn known_count(&self) -> usize
        ensures { result ≡ count_by (is_known self.now) self.now.shadows.names }
    {
        self.shadows.place_count() as usize - self.shadows.dropped_count()
    }
}
