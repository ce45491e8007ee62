//! Bytes read as a bulletin of an origin.
ghost use Rattle.std.specs.Prelude.{◌≡◌, IfErr, IfOk, Ok, nat_lt};
ghost use Rattle.history_model.specs.declared.records.Bulletin.{Bulletin};
ghost use Rattle.history_model.specs.declared.records.Bulletin.TheVariants as bulletins;
ghost use Rattle.history_model.specs.Tells.{origin_of};
ghost use Rattle.wire_grammar.specs.Spellable.{IsSpellable};
ghost use Rattle.wire_grammar.specs.Spelling.{spelled};
ghost use Rattle.collector.specs.Refusals.{IsFit, IsRefusal, counts_within, fault_of, is_foreign, is_within, pairs_within, read_as, states_within};

use crgc_ids::{ActorCount, ActorId, NodeId, PairCount};
use graph_wire::{ReadFault, Spare, WireFault};
use history_model::{Bulletin, Delta, StateRow, Window};

/// Why a collector refuses bytes.
#[derive(Clone, Copy, PartialEq, Eq, Debug)]
pub enum TakeFault {
    /// They begin with no bulletin: their first fault.
    BadBulletin(WireFault),
    /// Bytes follow the bulletin, from this offset on.
    Trailing(usize),
    /// The bulletin is another node's, or names a node that the cluster does not have.
    Foreign,
    /// Memory ran out.
    NoMemory,
}

/// The bulletin that the bytes are, of the origin in a cluster of so many nodes, in spare room; else the first reason to refuse
/// them. It takes memory and time in proportion to the bytes.
pub fn read_whole(
    spare: &mut Spare,
    nodes: u8,
    origin: NodeId,
    bytes: &[u8],
) -> Result<Bulletin, TakeFault>
    ensures read { IfOk result (λ b. read_as nodes origin bytes.now ≡ Ok b) }
    ensures refused { IfErr result (λ e. IsRefusal e (read_as nodes origin bytes.now)) }
    ensures fits { IfOk result (λ b. IsFit nodes origin b) }
    ensures only { IfOk result (λ b. (c : Bulletin) → IsSpellable c → bytes.now ≡ spelled c → c ≡ b) }
{
    let (b, len) = match graph_wire::read_into(spare, bytes) {
        Ok(read) => read,
        Err(fault) => return Err(take_fault(fault)),
    };
    if len < bytes.len() {
        return Err(TakeFault::Trailing(len));
    }
    if is_foreign(nodes, origin, &b) {
        return Err(TakeFault::Foreign);
    }
    Ok(b)
}

/// A collector's fault, where reading has this one.
fn take_fault(fault: ReadFault) -> TakeFault
    ensures { result ≡ fault_of fault }
{
    match fault {
        ReadFault::Wire(fault) => TakeFault::BadBulletin(fault),
        ReadFault::NoMemory => TakeFault::NoMemory,
    }
}

/// Whether the bulletin is not the origin's, or names another node than those of the cluster.
fn is_foreign(nodes: u8, origin: NodeId, b: &Bulletin) -> bool
    ensures { result ≡ is_foreign nodes origin b.now }
{
    origin_of(b) != origin || !is_within(nodes, b)
}

/// The node that published the bulletin.
fn origin_of(b: &Bulletin) -> NodeId
    ensures { result ≡ origin_of b.now }
{
    match b {
        Bulletin::Delta(delta) => delta.node,
        Bulletin::Window(window) => window.at,
        Bulletin::Final(window) => window.at,
    }
}

/// Whether the bulletin names only nodes of the cluster. Linear time in the number of rows.
fn is_within(nodes: u8, b: &Bulletin) -> bool
    ensures { result ≡ is_within nodes b.now }
{
    match b {
        Bulletin::Delta(delta) => is_delta_within(nodes, delta),
        Bulletin::Window(window) => is_window_within(nodes, window),
        Bulletin::Final(window) => is_window_within(nodes, window),
    }
}

fn is_delta_within(nodes: u8, delta: &Delta) -> bool
    ensures { result ≡ is_within nodes (bulletins.Delta delta.now) }
{
    delta.node.get() < nodes
        && states_within(nodes, delta.states.as_slice())
        && counts_within(nodes, delta.sent.as_slice())
        && pairs_within(nodes, delta.created.as_slice())
        && pairs_within(nodes, delta.released.as_slice())
}

fn is_window_within(nodes: u8, window: &Window) -> bool
    ensures { result ≡ is_within nodes (bulletins.Window window.now) }
{
    window.at.get() < nodes
        && window.from.get() < nodes
        && counts_within(nodes, window.messages.as_slice())
        && pairs_within(nodes, window.carried.as_slice())
}

/// Whether the rows name only nodes of the cluster.
fn states_within(nodes: u8, rows: &[StateRow]) -> bool
    ensures { result ≡ states_within nodes rows.now }
{
    rows.iter().all(|row| is_actor_within(nodes, row.actor))
}

fn counts_within(nodes: u8, rows: &[ActorCount]) -> bool
    ensures { result ≡ counts_within nodes rows.now }
{
    rows.iter().all(|row| is_actor_within(nodes, row.actor))
}

fn pairs_within(nodes: u8, rows: &[PairCount]) -> bool
    ensures { result ≡ pairs_within nodes rows.now }
{
    rows.iter().all(|row| {
        is_actor_within(nodes, row.owner) && is_actor_within(nodes, row.target)
    })
}

fn is_actor_within(nodes: u8, actor: ActorId) -> bool
    ensures { result ≡ nat_lt actor.node nodes }
{
    actor.node().get() < nodes
}
