//! Bytes that may be a bulletin, each handed to a new collector of node 0 as the first of its origin.
use crate::cases::Case;
use collector::{Collector, TakeFault, Taken};
use crgc_ids::NodeId;
use graph_wire::WireKind;
use std::alloc::{AllocError, Global};
use std::io;

/// The words of the answers.
const WORDS: [&str; 15] = [
    "folded", "waiting", "old", "short", "magic", "kind", "node", "order", "index", "zero",
    "flags", "unused", "narrow", "trailing", "foreign",
];

/// The answer to the case's bytes.
pub fn tell_taken(rt: &impl Print, alloc: Global, case: &Case<'_>) -> io::Result<()> {
    let name = case.name;
    let bytes = bytes_of(alloc, case)?;
    print!(rt; "{name}:")?;
    tell(rt, answer(alloc, case, bytes.as_slice()))?;
    rt.println("")
}

/// The answer to each proper beginning of the case's bytes.
pub fn tell_beginnings(rt: &impl Print, alloc: Global, case: &Case<'_>) -> io::Result<()> {
    let name = case.name;
    let bytes = bytes_of(alloc, case)?;
    for len in 0..bytes.len() {
        print!(rt; "{name}, {len} bytes:")?;
        tell(rt, answer(alloc, case, &bytes[..len]))?;
        rt.println("")?;
    }
    Ok(())
}

/// For each byte the answer where it is complemented, and how often each answer comes where it is one of the 255 others.
pub fn tell_changes(rt: &impl Print, alloc: Global, case: &Case<'_>) -> io::Result<()> {
    let name = case.name;
    let bytes = bytes_of(alloc, case)?;
    for place in 0..bytes.len() {
        print!(rt; "{name}, byte {place}:")?;
        tell_changed(rt, alloc, case, bytes.as_slice(), place)?;
    }
    Ok(())
}

fn tell_changed(
    rt: &impl Print,
    alloc: Global,
    case: &Case<'_>,
    bytes: &[u8],
    place: usize,
) -> io::Result<()> {
    let Some(byte) = bytes.get(place) else {
        return Ok(());
    };
    let complemented = with_byte(alloc, bytes, place, !*byte)?;
    tell(rt, answer(alloc, case, complemented.as_slice()))?;
    rt.print(" of all")?;
    let words = words_of_all(alloc, case, bytes, place)?;
    for word in WORDS {
        let count = count_of(words.as_slice(), word);
        if count > 0 {
            print!(rt; " {word} {count}")?;
        }
    }
    rt.println("")
}

/// The words of the answers to the 255 other bytes at the place.
fn words_of_all(
    alloc: Global,
    case: &Case<'_>,
    bytes: &[u8],
    place: usize,
) -> Result<Vec<&'static str>, AllocError> {
    let mut words = Vec::new(alloc);
    for byte in 0..=255u8 {
        let changed = with_byte(alloc, bytes, place, byte)?;
        if changed.as_slice() != bytes {
            words.push(word_of(answer(alloc, case, changed.as_slice())))?;
        }
    }
    Ok(words)
}

fn count_of(words: &[&str], wanted: &str) -> usize {
    words.iter().filter(|word| **word == wanted).count()
}

fn with_byte(alloc: Global, bytes: &[u8], place: usize, byte: u8) -> Result<Vec<u8>, AllocError> {
    let mut changed = bytes.to_vec(alloc)?;
    if let Some(old) = changed.get_mut(place) {
        *old = byte;
    }
    Ok(changed)
}

/// The bytes that the case's text spells in hexadecimal digits.
fn bytes_of(alloc: Global, case: &Case<'_>) -> io::Result<Vec<u8>> {
    match hex::decode(alloc, case.bytes.as_slice()) {
        Ok(bytes) => Ok(bytes),
        Err(_) => Err(io::ErrorKind::InvalidData.into()),
    }
}

/// The answer in a cluster of as many nodes as the case's first word says, to bytes of the origin that the second says; None
/// where there is no such origin, or no memory.
fn answer(alloc: Global, case: &Case<'_>, bytes: &[u8]) -> Option<Result<Taken, TakeFault>> {
    let mut collector = collector_of(alloc, case.number(0)?)?;
    hand(&mut collector, case.number(1)?, bytes)
}

fn collector_of(alloc: Global, nodes: u8) -> Option<Collector> {
    let node = NodeId::new(0)?;
    if node.get() >= nodes || nodes > 16 {
        return None;
    }
    Collector::new(alloc, node, nodes).ok()
}

fn hand(collector: &mut Collector, origin: u8, bytes: &[u8]) -> Option<Result<Taken, TakeFault>> {
    let origin = NodeId::new(origin)?;
    if origin.get() >= collector.nodes() {
        return None;
    }
    Some(collector.take(origin, 0, bytes))
}

/// The word of the answer, and its place in the bytes where it has one.
fn tell(rt: &impl Print, answer: Option<Result<Taken, TakeFault>>) -> io::Result<()> {
    let word = word_of(answer);
    print!(rt; " {word}")?;
    match answer {
        Some(Err(TakeFault::BadBulletin(fault))) => {
            let offset = fault.offset;
            print!(rt; " at {offset}")
        }
        Some(Err(TakeFault::Trailing(offset))) => print!(rt; " at {offset}"),
        _ => Ok(()),
    }
}

fn word_of(answer: Option<Result<Taken, TakeFault>>) -> &'static str {
    match answer {
        Some(Ok(Taken::Folded(_))) => "folded",
        Some(Ok(Taken::Waiting)) => "waiting",
        Some(Ok(Taken::Old)) => "old",
        Some(Err(TakeFault::BadBulletin(fault))) => word_of_kind(fault.kind),
        Some(Err(TakeFault::Trailing(_))) => "trailing",
        Some(Err(TakeFault::Foreign)) => "foreign",
        Some(Err(TakeFault::NoMemory)) | None => "no answer",
    }
}

fn word_of_kind(kind: WireKind) -> &'static str {
    match kind {
        WireKind::Short => "short",
        WireKind::Magic => "magic",
        WireKind::Kind => "kind",
        WireKind::Node => "node",
        WireKind::Order => "order",
        WireKind::Index => "index",
        WireKind::Zero => "zero",
        WireKind::Flags => "flags",
        WireKind::Unused => "unused",
        WireKind::Narrow => "narrow",
    }
}
