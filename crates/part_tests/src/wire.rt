use crate::plain_reader::plain;
use crgc_ids::Octets;
use graph_wire::{ReadFault, WireFault, WireKind, read, write};
use std::alloc::{AllocError, Global};
use std::test::Fail;

/// The Delta of a seed that spawned an actor and dropped it.
const DELTA: [u8; 76] = [
    67, 82, 71, 49, 1, 0, 0, 2, 0, 0, 0, 0, 0, 0, 0, 0, 0, 1, 0, 2, 0, 0, 0, 0, 0, 0, 2, 0, 1, 0,
    0, 0, 0, 0, 0, 0, 0, 0, 0, 3, 0, 0, 0, 0, 0, 0, 0, 1, 0, 0, 0, 1, 0, 0, 0, 1, 0, 1, 0, 1, 0, 0,
    0, 1, 0, 0, 0, 1, 0, 0, 0, 1, 0, 0, 0, 1,
];

/// The Final of a link from 0 to 1 that admitted one message.
const FINAL: [u8; 26] = [
    67, 82, 71, 49, 3, 1, 0, 0, 1, 1, 0, 0, 0, 1, 0, 1, 0, 0, 0, 0, 0, 1, 0, 0, 0, 0,
];

/// Where the fields of the Delta begin.
const FIELDS: [usize; 30] = [
    0, 4, 5, 6, 8, 9, 13, 14, 18, 20, 22, 26, 27, 29, 33, 34, 36, 40, 42, 44, 48, 50, 52, 56, 58,
    60, 64, 68, 70, 72,
];

/// The bytes, with others in the place of those between two indexes.
fn changed(
    alloc: Global,
    bytes: &[u8],
    from: usize,
    others: &[u8],
    to: usize,
) -> Result<Vec<u8>, AllocError> {
    let mut out = Vec::new(alloc);
    for (i, byte) in bytes.iter().enumerate() {
        if i == from {
            out.extend_from_slice(others)?;
        }
        if i < from || to <= i {
            out.push(*byte)?;
        }
    }
    Ok(out)
}

/// For each serial below 65,536 the bytes before it, it in four bytes, once or twice, and the bytes after it.
fn put_each(out: &mut Vec<u8>, before: &[u8], twice: bool, after: &[u8]) -> Result<(), AllocError> {
    for serial in 0..65_536u32 {
        out.extend_from_slice(before)?;
        out.extend_from_slice(&serial.to_be_bytes())?;
        if twice {
            out.extend_from_slice(&serial.to_be_bytes())?;
        }
        out.extend_from_slice(after)?;
    }
    Ok(())
}

/// The Delta of the first entries of 65,536 seeds of node 0, in the wide form.
fn many_seeds(alloc: Global) -> Result<Vec<u8>, AllocError> {
    let mut out = Vec::new(alloc);
    out.extend_from_slice(b"CRG2\x01\x00\x00\x01\x00\x00")?;
    put_each(&mut out, &[0], false, &[])?;
    out.extend_from_slice(&[0, 1, 0, 0])?;
    put_each(&mut out, &[], false, &[0, 0, 0, 0, 2])?;
    out.extend_from_slice(&[0, 0, 0, 0, 0, 1, 0, 0])?;
    put_each(&mut out, &[], true, &[0, 0, 0, 1])?;
    out.extend_from_slice(&[0, 0, 0, 0])?;
    Ok(out)
}

/// The first fault; None where a bulletin is read or memory runs out.
fn fault_in(alloc: Global, bytes: &[u8]) -> Option<WireFault> {
    match read(alloc, bytes) {
        Err(ReadFault::Wire(fault)) => Some(fault),
        _ => None,
    }
}

/// What is read, written again, with the length that was read.
fn again(alloc: Global, bytes: &[u8]) -> Option<(Octets, usize)> {
    match read(alloc, bytes) {
        Ok((b, n)) => match write(alloc, &b) {
            Ok(text) => Some((text, n)),
            Err(_) => None,
        },
        Err(_) => None,
    }
}

#[test]
fn worked_bytes_are_read_and_written_again(rt: HostRuntime) -> Result<(), Fail> {
    let (text, n) = again(rt.alloc(), &DELTA).ok_or("a Delta")?;
    assert_eq!(rt; n, 76);
    assert_eq!(rt; text.as_slice(), DELTA.as_slice());
    let (text, n) = again(rt.alloc(), &FINAL).ok_or("a Final")?;
    assert_eq!(rt; n, 26);
    assert_eq!(rt; text.as_slice(), FINAL.as_slice());
    let mut longer = DELTA.to_vec(rt.alloc())?;
    longer.push(0)?;
    let (_, n) = again(rt.alloc(), &longer).ok_or("a Delta and a byte")?;
    assert_eq!(rt; n, 76);
    Ok(())
}

#[test]
fn a_wide_delta_is_read_and_written_again(rt: HostRuntime) -> Result<(), Fail> {
    let bytes = many_seeds(rt.alloc())?;
    assert_eq!(rt; bytes.len(), 1_703_962);
    let (text, n) = again(rt.alloc(), &bytes).ok_or("a wide Delta")?;
    assert_eq!(rt; n, 1_703_962);
    assert!(rt; text.as_slice() == bytes.as_slice());
    Ok(())
}

#[test]
fn each_broken_form_has_its_fault(rt: HostRuntime) -> Result<(), Fail> {
    let cases: [(&[u8], usize, &[u8], usize, WireKind, usize); 11] = [
        (&DELTA, 0, &[0x44], 1, WireKind::Magic, 0),
        (&DELTA, 4, &[4], 5, WireKind::Kind, 4),
        (&DELTA, 5, &[16], 6, WireKind::Node, 5),
        (
            &DELTA,
            8,
            &[0, 0, 0, 0, 1, 0, 0, 0, 0, 0],
            18,
            WireKind::Order,
            13,
        ),
        (&DELTA, 27, &[0, 2], 29, WireKind::Index, 27),
        (&DELTA, 27, &[0, 0], 29, WireKind::Order, 27),
        (&DELTA, 26, &[4], 27, WireKind::Flags, 26),
        (&DELTA, 44, &[0, 0, 0, 0], 48, WireKind::Zero, 44),
        (
            &DELTA,
            6,
            &[0, 3, 0, 0, 0, 0, 0, 0, 0, 0, 0, 1, 0, 0, 0, 0, 2],
            18,
            WireKind::Unused,
            18,
        ),
        (
            &DELTA,
            0,
            b"CRG2\x01\x00\x00\x00\x00\x02",
            76,
            WireKind::Narrow,
            6,
        ),
        (&FINAL, 6, &[1], 7, WireKind::Node, 6),
    ];
    for (bytes, from, others, to, kind, offset) in cases {
        let broken = changed(rt.alloc(), bytes, from, others, to)?;
        assert_eq!(rt;
            fault_in(rt.alloc(), &broken),
            Some(WireFault { kind, offset })
        );
    }
    Ok(())
}

#[test]
fn each_prefix_is_short_where_it_cuts_a_field(rt: HostRuntime) {
    for n in 0..76usize {
        let kind = WireKind::Short;
        let mut offset = 0;
        for start in FIELDS {
            if start <= n {
                offset = start;
            }
        }
        assert_eq!(rt;
            fault_in(rt.alloc(), &DELTA[..n]),
            Some(WireFault { kind, offset }),
            "{n} bytes"
        );
    }
}

#[test]
fn a_plain_reader_agrees_on_each_byte_that_is_turned_round(rt: HostRuntime) -> Result<(), Fail> {
    for (i, byte) in DELTA.iter().enumerate() {
        let turned = changed(rt.alloc(), &DELTA, i, &[!*byte], i.saturating_add(1))?;
        assert_eq!(rt;
            fault_in(rt.alloc(), &turned),
            plain(&turned).err(),
            "byte {i}"
        );
    }
    assert_eq!(rt; plain(&DELTA), Ok(76));
    Ok(())
}
