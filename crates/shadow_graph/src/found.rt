//! What is found of an actor, and of an owner and a target, whether a row named them or not.
ghost use Rattle.std.specs.Prelude.{◌≡◌};
ghost use Rattle.edge_table.specs.Table.{no_edge};
ghost use Rattle.shadow_table.specs.Shadows.{blank, shadow_at};
ghost use Rattle.shadow_rows.specs.Pairs.{edge_between};
ghost use Rattle.shadow_rows.specs.Tabled.{AreTabled};

use crgc_ids::ActorId;
use edge_table::{Edge, EdgeTable};
use shadow_rows::number_of;
use shadow_table::{Shadow, ShadowTable};

/// The shadow of the actor, or a blank one where it was not named.
pub fn shadow_of(shadows: &ShadowTable, actor: ActorId) -> Shadow
    ensures { result ≡ shadow_at shadows.now actor }
{
    let _places = shadows.place_count();
    let Some(place) = shadows.place_of(actor) else {
        return blank();
    };
    shadows.shadow(place)
}

/// What is kept of the owner's references to the target, or of no edge where no row named the pair. At most 2 * 8 looks at lists,
/// and where that does not tell, logarithmic time.
pub fn edge_between(
    shadows: &ShadowTable,
    edges: &EdgeTable,
    owner: ActorId,
    target: ActorId,
) -> Edge
    requires { AreTabled shadows.now.names edges.now }
    ensures { result ≡ edge_between edges.now owner target }
{
    let Some(number) = number_of(shadows, edges, owner, target) else {
        return no_edge();
    };
    edges.edge(number)
}

/// The shadow of an actor of which nothing is told.
pub fn blank() -> Shadow
    ensures { result ≡ blank }
{
    Shadow {
        received: 0,
        told: 0,
        admitted: 0,
        flags: None,
        dropped: false,
    }
}

/// An edge with count 0.
fn no_edge() -> Edge
    ensures { result ≡ no_edge }
{
    Edge {
        owner: 0,
        target: 0,
        count: 0,
    }
}
