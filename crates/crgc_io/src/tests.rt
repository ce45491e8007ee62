use crate::{
    Failed, Gate, HoldGate, MemorySink, MemorySource, ReadAll, Sink, Source, StdSink, StdSource,
    WriteFault, read_all, write_all,
};
use crgc_ids::{ActorId, NodeId};
use std::io;
use std::io::{ErrorKind, Read, Write};
use std::test::Fail;
use std::thread::join;

#[test]
fn reading_takes_short_pieces_up_to_the_limit_and_tells_a_fault_from_a_long_input(
    rt: HostRuntime,
) -> Result<(), Fail> {
    let bytes = [1, 2, 3, 4, 5];
    let cases = [
        (2, [9, 9], 5, Ok(())),
        (2, [9, 9], 4, Err(ReadAll::TooLong)),
        (2, [9, 1], 5, Err(ReadAll::ReadFault)),
        (2, [3, 9], 5, Err(ReadAll::ReadFault)),
        (1, [5, 9], 4, Err(ReadAll::TooLong)),
        (9, [2, 9], 5, Ok(())),
    ];
    for (piece, failing, limit, expected) in cases {
        let mut source = MemorySource::new(
            bytes.to_vec(rt.alloc())?,
            piece,
            failing.to_vec(rt.alloc())?,
        );
        match read_all(rt.alloc(), &mut source, limit) {
            Ok(all) => {
                assert_eq!(rt; expected, Ok(()));
                assert_eq!(rt; all.as_slice(), bytes.as_slice());
            }
            Err(why) => assert_eq!(rt; expected, Err(why)),
        }
    }
    Ok(())
}

#[test]
fn a_failing_write_leaves_exactly_the_bytes_written_before(rt: HostRuntime) -> Result<(), Fail> {
    let bytes = b"eight by eight bytes";
    let none = Vec::new(rt.alloc());
    let mut whole = MemorySink::new(rt.alloc(), 20, 8, none)
        .ok()
        .ok_or("memory")?;
    assert_eq!(rt; write_all(&mut whole, bytes), Ok(()));
    assert_eq!(rt; whole.bytes(), bytes.as_slice());
    let second = [1].to_vec(rt.alloc())?;
    let mut sink = MemorySink::new(rt.alloc(), 20, 8, second)
        .ok()
        .ok_or("memory")?;
    assert_eq!(rt; write_all(&mut sink, bytes), Err(WriteFault { written: 8 }));
    assert_eq!(rt; sink.bytes(), b"eight by".as_slice());
    assert_eq!(rt; write_all(&mut sink, &bytes[8..]), Ok(()));
    assert_eq!(rt; write_all(&mut sink, bytes), Err(WriteFault { written: 0 }));
    assert_eq!(rt; sink.bytes(), bytes.as_slice());
    Ok(())
}

/// A reader whose first read fails. Each later one gives its number, from 1, where the buffer has room.
#[derive(Drop)]
struct FailsOnce {
    reads: u8,
}

impl Read for FailsOnce {
    fn read(&mut self, buf: &mut [u8]) -> io::Result<usize> {
        self.reads = self.reads.saturating_add(1);
        if self.reads == 1 {
            return Err(io::Error::from(ErrorKind::Other));
        }
        if buf.is_empty() {
            return Ok(0);
        }
        buf[0] = self.reads;
        Ok(1)
    }
}

#[test]
fn a_source_over_a_reader_asks_it_once_a_call(rt: HostRuntime) -> Result<(), Fail> {
    let mut source = StdSource::new(FailsOnce { reads: 0 });
    let mut byte = [0];
    assert_eq!(rt; source.read(&mut byte), Err(Failed));
    assert_eq!(rt; (source.read(&mut byte), byte), (Ok(1), [2]));
    assert_eq!(rt; source.read(&mut []), Ok(0));
    assert_eq!(rt; (source.read(&mut byte), byte), (Ok(1), [4]));
    let mut ended = StdSource::new(b"".as_slice());
    assert_eq!(rt; ended.read(&mut byte), Ok(0), "the end is no fault");
    Ok(())
}

/// A writer whose first write fails, whose second one takes nothing, and whose later ones take one byte at most.
#[derive(Drop)]
struct TakesNothingTwice {
    writes: u8,
}

impl Write for TakesNothingTwice {
    fn write(&mut self, piece: &[u8]) -> io::Result<usize> {
        self.writes = self.writes.saturating_add(1);
        match self.writes {
            1 => Err(io::Error::from(ErrorKind::Other)),
            2 => Ok(0),
            _ => Ok(piece.len().min(1)),
        }
    }

    fn flush(&mut self) -> io::Result<()> {
        Ok(())
    }
}

#[test]
fn a_sink_over_a_writer_asks_it_once_a_call(rt: HostRuntime) -> Result<(), Fail> {
    let mut sink = StdSink::new(TakesNothingTwice { writes: 0 });
    assert_eq!(rt; sink.write(b"two"), Err(Failed));
    assert_eq!(rt; sink.write(b"two"), Err(Failed), "it took nothing");
    assert_eq!(rt; sink.write(b"two"), Ok(1));
    assert_eq!(rt; sink.write(b""), Ok(0), "an empty piece is no fault");
    Ok(())
}

#[test]
fn std_readers_and_writers_are_sources_and_sinks(rt: HostRuntime) -> Result<(), Fail> {
    let mut source = StdSource::new(b"bytes".as_slice());
    let all = read_all(rt.alloc(), &mut source, 9).ok().ok_or("memory")?;
    assert_eq!(rt; all.as_slice(), b"bytes".as_slice());
    let mut room = [0; 3];
    let mut sink = StdSink::new(room.as_mut_slice());
    assert_eq!(rt;
        write_all(&mut sink, b"four"),
        Err(WriteFault { written: 3 })
    );
    drop(sink);
    assert_eq!(rt; room.as_slice(), b"fou".as_slice());
    Ok(())
}

fn actor(serial: u32) -> Option<ActorId> {
    ActorId::new(NodeId::new(0)?, serial)
}

#[test]
fn two_turns_meet_at_a_gate_only_where_the_first_is_held(rt: HostRuntime) -> Result<(), Fail> {
    let (one, other) = (actor(0).ok_or("an actor")?, actor(1).ok_or("an actor")?);
    let missed = HoldGate::new(3);
    missed.turn_begins(0, one);
    missed.turn_begins(1, other);
    assert!(rt; !missed.met());
    let held = HoldGate::new(1 << 31);
    join(
        &rt,
        || held.turn_begins(0, one),
        || held.turn_begins(1, other),
    );
    assert!(rt; held.met());
    held.turn_begins(0, one);
    assert!(rt; held.met());
    Ok(())
}
