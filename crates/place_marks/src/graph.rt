//! What marks ask of a graph.
ghost use Rattle.std.specs.Prelude.{◌≡◌, ◌<◌};
ghost use Rattle.place_marks.specs.Graph.{AreFrom, AreTo, Graph, IsGraph};

/// A graph whose places are the numbers below their count. Some places are starts. Edges have numbers, and lead from a place to
/// a place; marks go along positive edges alone.
pub trait PlaceGraph {
    // the starts, and where each positive edge leads
    ghost graph: { Self → Graph };

    /// How many places there are.
    fn place_count(&self) -> u32
        ensures count { result ≡ (graph self.now).places }
        ensures whole { IsGraph (graph self.now) };

    /// Whether the place is a start.
    fn is_start(&self, place: u32) -> bool
        requires { place < (graph self.now).places }
        ensures { result ≡ (graph self.now).is_start place };

    /// The places of the owner and of the target of the edge with this number; None where it is not positive, or no edge.
    fn step(&self, number: u32) -> Option<(u32, u32)>
        ensures { result ≡ (graph self.now).step number };

    /// The positive edges from the place, each as the place of its target and its number; there may be others of its edges among
    /// them.
    fn edges_from(&self, place: u32) -> &[(u32, u32)]
        requires { place < (graph self.now).places }
        ensures { AreFrom (graph self.now) place result.now };

    /// The positive edges to the place, each as the place of its owner and its number; there may be others of its edges among
    /// them.
    fn edges_to(&self, place: u32) -> &[(u32, u32)]
        requires { place < (graph self.now).places }
        ensures { AreTo (graph self.now) place result.now };
}
