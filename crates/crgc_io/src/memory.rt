//! A source and a sink over memory, for tests: which bytes come in which call, and which calls
//! fail, is known.
ghost use Rattle.std.specs.Prelude.{◌≡◌, ℕ, ◌-◌, ◌<◌, ◌≤◌, ◌⊎◌, ◌↔◌, ◌++◌, [], Some, Contains, IfOk, OnErr, OnOk, IsErr, length, take, drop, min, is_err, true};
ghost use Rattle.std.specs.Io.{ReadsAtMost, WritesAtMost};
ghost use Rattle.std.specs.Io.KnownBytes.{ReadConsumes, WriteAppends};
ghost use Rattle.crgc_io.specs.Fault.{CountRose};
ghost use Rattle.crgc_io.specs.Memory.{after_call, calls_from, has_nothing};
ghost use Rattle.crgc_io.specs.Taken.{Records};

use crate::calls::MemoryCalls;
use crate::traits::{Failed, Sink, Source};
use crgc_ids::NoMemory;
use std::alloc::Global;
use std::marker::Model;

/// A source that gives the bytes of a vector, a piece a call.
#[derive(Debug, Drop)]
pub struct MemorySource {
    bytes: Vec<u8>,
    calls: MemoryCalls,
    position: usize,
}

impl Model for MemorySource {
    ghost use Rattle.std.specs.Prelude.{◌≤◌, take, drop, vec_len};
    ghost use Rattle.crgc_io.specs.Memory.{Reading};

    ghost Value = { Reading };

    ghost view = { λ s. record {
      given = take s.position s.bytes.items;
      left = drop s.position s.bytes.items;
      calls = s.calls;
    } };

    ghost invariant = { λ s. s.position ≤ vec_len s.bytes };
}

impl MemorySource {
    /// A source of these bytes, at most `piece` of them a read. The reads whose number, from 0, is
    /// in `failing` fail.
    pub fn new(bytes: Vec<u8>, piece: usize, failing: Vec<u32>) -> MemorySource
        requires { 0 < piece }
        ensures { result ≡ record {
          given = [];
          left = bytes.items;
          calls = calls_from piece failing.items;
        } }
    {
        MemorySource {
            bytes,
            calls: MemoryCalls::new(piece, failing),
            position: 0,
        }
    }
}

impl Source for MemorySource {
    ghost left = { λ s. Some s.left };

    ghost given = { λ s. s.given };

    ghost ended = { λ s. has_nothing s.left };

    ghost faults = { λ s. s.calls.faults };

    fn read(&mut self, buf: &mut [u8]) -> Result<usize, Failed>
        ensures bound { ReadsAtMost result buf.new }
        ensures bytes { ReadConsumes (Some self.old.left) (Some self.new.left) result buf.new }
        ensures record { Records self.old.given self.new.given result buf.new }
        ensures end { IfOk result (λ n. n ≡ 0 → 0 < length buf.new → has_nothing self.new.left ≡ true) }
        ensures never_falls { self.old.calls.faults ≤ self.new.calls.faults }
        ensures failed { OnErr result (CountRose self.old.calls.faults self.new.calls.faults) }
        ensures stands { OnOk result (self.new.calls.faults ≡ self.old.calls.faults) }
        ensures fails { IsErr result ↔ Contains self.old.calls.failing self.old.calls.made }
        ensures counts { self.new.calls ≡ after_call (is_err result) self.old.calls }
        ensures count { IfOk result (λ n.
            n ≡ min (min (length self.old.left) (length buf.old)) self.old.calls.piece) }
        ensures copied { IfOk result (λ n. buf.new ≡ take n self.old.left ++ drop n buf.old) }
        ensures untouched { OnErr result (buf.new ≡ buf.old) }
    {
        let most = match self.calls.make(false) {
            Ok(piece) => piece,
            Err(Failed) => return Err(Failed),
        };
        let count = copy_front(&self.bytes[self.position..], buf, most);
        self.position += count;
        Ok(count)
    }
}

// Copies as many bytes as both have, but at most so many, and answers how many.
fn copy_front(from: &[u8], to: &mut [u8], most: usize) -> usize
    ensures count { result ≡ min (min (length from.now) (length to.old)) most }
    ensures front { take result to.new ≡ take result from.now }
    ensures copied { to.new ≡ take result from.now ++ drop result to.old }
{
    let count = from.len().min(to.len()).min(most);
    to[..count].copy_from_slice(&from[..count]);
    count
}

/// A sink that keeps the bytes in memory taken beforehand.
#[derive(Debug, Drop)]
pub struct MemorySink {
    bytes: Vec<u8>,
    calls: MemoryCalls,
    room: usize,
}

impl Model for MemorySink {
    ghost use Rattle.std.specs.Prelude.{◌≤◌, vec_len, vec_capacity};
    ghost use Rattle.crgc_io.specs.Memory.{Writing};

    ghost Value = { Writing };

    ghost view = { λ s. record { held = s.bytes.items; room = s.room; calls = s.calls } };

    ghost invariant = { λ s. (vec_len s.bytes ≤ s.room) × (s.room ≤ vec_capacity s.bytes) };
}

impl MemorySink {
    /// A sink with room for so many bytes, at most `piece` of them a write. The writes whose number,
    /// from 0, is in `failing` fail, and so do those that find no room. Writes take no memory.
    pub fn new(
        alloc: Global,
        room: usize,
        piece: usize,
        failing: Vec<u32>,
    ) -> Result<MemorySink, NoMemory>
        requires { 0 < piece }
        ensures { IfOk result (λ s. s ≡ record {
          held = [];
          room = room;
          calls = calls_from piece failing.items;
        }) }
    {
        match Vec::with_capacity(alloc, room) {
            Ok(bytes) => Ok(MemorySink {
                bytes,
                calls: MemoryCalls::new(piece, failing),
                room,
            }),
            Err(_) => Err(NoMemory),
        }
    }

    /// What it holds.
    pub fn bytes(&self) -> &[u8]
        ensures { result.now ≡ self.now.held }
    {
        self.bytes.as_slice()
    }
}

impl Sink for MemorySink {
    ghost held = { λ s. Some s.held };

    ghost taken = { λ s. s.held };

    ghost faults = { λ s. s.calls.faults };

    fn write(&mut self, piece: &[u8]) -> Result<usize, Failed>
        ensures bound { WritesAtMost result piece.now }
        ensures progress { IfOk result (λ n. 0 < length piece.now → 0 < n) }
        ensures bytes { WriteAppends (Some self.old.held) (Some self.new.held) result piece.now }
        ensures record { Records self.old.held self.new.held result piece.now }
        ensures never_falls { self.old.calls.faults ≤ self.new.calls.faults }
        ensures failed { OnErr result (CountRose self.old.calls.faults self.new.calls.faults) }
        ensures stands { OnOk result (self.new.calls.faults ≡ self.old.calls.faults) }
        ensures fails { IsErr result
            ↔ (((0 < length piece.now) × (length self.old.held ≡ self.old.room))
            ⊎ Contains self.old.calls.failing self.old.calls.made) }
        ensures counts { self.new.calls ≡ after_call (is_err result) self.old.calls }
        ensures room { self.new.room ≡ self.old.room }
        ensures count { IfOk result (λ n. n ≡ min (min (length piece.now) self.old.calls.piece)
            (self.old.room - length self.old.held)) }
    {
        let room = self.room - self.bytes.len();
        let most = match self.calls.make(room == 0 && !piece.is_empty()) {
            Ok(piece) => piece,
            Err(Failed) => return Err(Failed),
        };
        let count = piece.len().min(most).min(room);
        self.bytes.extend_from_slice(&piece[..count]).unwrap();
        Ok(count)
    }
}
