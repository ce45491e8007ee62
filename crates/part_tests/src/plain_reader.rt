//! A second reader of Deltas in the narrow form, field by field, against which the first one is tried.
use graph_wire::{WireFault, WireKind};

fn fail<T>(kind: WireKind, offset: usize) -> Result<T, WireFault> {
    Err(WireFault { kind, offset })
}

/// The next number of some bytes.
fn take(bytes: &[u8], at: &mut usize, len: usize) -> Result<u32, WireFault> {
    let end = at.saturating_add(len);
    match bytes.get(*at..end) {
        None => fail(WireKind::Short, *at),
        Some(field) => {
            let mut number: u32 = 0;
            for byte in field {
                number = number.wrapping_mul(256).wrapping_add(u32::from(*byte));
            }
            *at = end;
            Ok(number)
        }
    }
}

/// The number of the table's actors.
fn table(bytes: &[u8], at: &mut usize) -> Result<u32, WireFault> {
    let count = take(bytes, at, 2)?;
    let mut last = None;
    for _ in 0..count {
        let start = *at;
        let node = take(bytes, at, 1)?;
        if node > 15 {
            return fail(WireKind::Node, start);
        }
        let serial_start = *at;
        let serial = take(bytes, at, 4)?;
        if serial > 262_143 {
            return fail(WireKind::Node, serial_start);
        }
        let actor = Some((node, serial));
        if actor <= last {
            return fail(WireKind::Order, start);
        }
        last = actor;
    }
    Ok(count)
}

/// An index below the number of the table's actors, which is then used.
fn index(bytes: &[u8], at: &mut usize, count: u32, used: &mut [bool]) -> Result<u32, WireFault> {
    let start = *at;
    let index = take(bytes, at, 2)?;
    if index >= count {
        return fail(WireKind::Index, start);
    }
    if let Some(flag) = used.get_mut(index as usize) {
        *flag = true;
    }
    Ok(index)
}

/// What stands behind a row's key: a count, or the received messages and the flags of a state.
fn tail(bytes: &[u8], at: &mut usize, is_state: bool) -> Result<(), WireFault> {
    let start = *at;
    let number = take(bytes, at, 4)?;
    if number == 0 && !is_state {
        return fail(WireKind::Zero, start);
    }
    let flags_start = *at;
    if is_state && take(bytes, at, 1)? > 3 {
        return fail(WireKind::Flags, flags_start);
    }
    Ok(())
}

/// A section: how many bytes its count has, whether its rows name two actors, and whether they are states.
fn section(
    bytes: &[u8],
    at: &mut usize,
    count: u32,
    used: &mut [bool],
    form: (usize, bool, bool),
) -> Result<(), WireFault> {
    let rows = take(bytes, at, form.0)?;
    let mut last = None;
    for _ in 0..rows {
        let start = *at;
        let first = index(bytes, at, count, used)?;
        let second = if form.1 {
            index(bytes, at, count, used)?
        } else {
            0
        };
        let key = Some((first, second));
        if key <= last {
            return fail(WireKind::Order, start);
        }
        last = key;
        tail(bytes, at, form.2)?;
    }
    Ok(())
}

/// The length of the Delta.
pub fn plain(bytes: &[u8]) -> Result<usize, WireFault> {
    let mut at = 0;
    if take(bytes, &mut at, 4)? != 0x4352_4731 {
        return fail(WireKind::Magic, 0);
    }
    if take(bytes, &mut at, 1)? != 1 {
        return fail(WireKind::Kind, 4);
    }
    if take(bytes, &mut at, 1)? > 15 {
        return fail(WireKind::Node, 5);
    }
    let count = table(bytes, &mut at)?;
    let mut used = [false; 16];
    for form in [
        (2, false, true),
        (2, false, false),
        (4, true, false),
        (4, true, false),
    ] {
        section(bytes, &mut at, count, &mut used, form)?;
    }
    let mut offset = 8usize;
    for flag in used.iter().take(count as usize) {
        if !*flag {
            return fail(WireKind::Unused, offset);
        }
        offset = offset.saturating_add(5);
    }
    Ok(at)
}
