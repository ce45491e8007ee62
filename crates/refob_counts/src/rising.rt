//! Targets and their counts in a vector, in the order of the targets.
ghost use Rattle.std.specs.Prelude.{◌≡◌, ◌<◌, ◌↔◌, IsTrue, IfSome, IfNone, None, OnOk, OnErr, vec_capacity, vec_len};
ghost use Rattle.refob_counts.specs.Rising.{AreBelow, AreRising, IsPlaceOf, IsPushed, found_in, standing};

use crgc_ids::{ActorId, NoMemory};

/// Whether all the targets are below this one. Constant time.
#[inline(always)]
pub fn are_below(rows: &[(ActorId, u32)], target: ActorId) -> bool
    requires { AreRising rows.now }
    ensures { IsTrue result ↔ AreBelow rows.now target }
{
    match rows.last() {
        Some(last) => last.0 < target,
        None => true,
    }
}

/// The place of the target, None where it has none. Constant time where the serials rise evenly, as those of children do, else
/// logarithmic time.
pub fn place_of(rows: &[(ActorId, u32)], target: ActorId) -> Option<usize>
    requires { AreRising rows.now }
    ensures some { IfSome result (IsPlaceOf rows.now target) }
    ensures none { IfNone result (found_in rows.now target ≡ None) }
{
    let likely = likely_place(rows, target);
    match rows.get(likely) {
        Some(row) if row.0 == target => Some(likely),
        _ => search(rows, target),
    }
}

/// The place of the target, None where it has none. Logarithmic time.
fn search(rows: &[(ActorId, u32)], target: ActorId) -> Option<usize>
    requires { AreRising rows.now }
    ensures some { IfSome result (IsPlaceOf rows.now target) }
    ensures none { IfNone result (found_in rows.now target ≡ None) }
{
    rows.binary_search_by(|row| row.0.cmp(&target)).ok()
}

/// Where the target has its place if the serials rise evenly from the first row to the last.
#[inline(always)]
fn likely_place(rows: &[(ActorId, u32)], target: ActorId) -> usize {
    let (Some(first), Some(last)) = (rows.first(), rows.last()) else {
        return 0;
    };
    let first = u64::from(first.0.serial());
    let span = u64::from(last.0.serial()).saturating_sub(first);
    let ahead = u64::from(target.serial()).saturating_sub(first);
    match ahead
        .saturating_mul(rows.len() as u64 - 1)
        .checked_div(span)
    {
        Some(place) => place as usize,
        None => 0,
    }
}

/// The target, which is above all the others, comes last. Where the vector is full, those with a count of 0 go. Amortized constant
/// time.
#[inline(always)]
pub fn push(rows: &mut Vec<(ActorId, u32)>, target: ActorId, count: u32) -> Result<(), NoMemory>
    ensures ok { OnOk result (IsPushed rows.old.items rows.new.items (target, count)) }
    ensures err { OnErr result (rows.new.items ≡ standing rows.old.items) }
{
    if rows.len() == rows.capacity() {
        make_room(rows)?;
    }
    rows.push_reserved((target, count));
    Ok(())
}

/// The targets with a count of 0 go, and the vector grows where more than half of them stay. Linear time: as many pushes came before
/// it, or come after it.
#[inline(never)]
fn make_room(rows: &mut Vec<(ActorId, u32)>) -> Result<(), NoMemory>
    ensures stay { rows.new.items ≡ standing rows.old.items }
    ensures room { OnOk result (vec_len rows.new < vec_capacity rows.new) }
{
    rows.retain(|row| row.1 != 0);
    match rows.reserve(rows.len().max(1)) {
        Ok(()) => Ok(()),
        Err(_) => Err(NoMemory),
    }
}
