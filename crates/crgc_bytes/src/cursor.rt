//! A cursor over bytes.
ghost use Rattle.std.specs.Prelude.{◌≡◌};
ghost use Rattle.crgc_bytes.specs.Place.{Takes};

use byteorder::{BigEndian, ByteOrder};
use std::marker::Model;

/// A place in some bytes, from which numbers are taken one after the other. Contracts see how many bytes stand before
/// the place, and the bytes from there on.
#[derive(Debug, Drop)]
pub struct Cursor<'a> {
    bytes: &'a [u8],
    offset: usize,
}

impl<'a> Model for Cursor<'a> {
    ghost use Rattle.std.specs.Prelude.{drop, length, ◌≤◌};
    ghost use Rattle.crgc_bytes.specs.Place.{Place};

    ghost Value = { Place };

    ghost view = { λ c. record { offset = c.offset; rest = drop c.offset c.bytes.now } };

    ghost invariant = { λ c. c.offset ≤ length c.bytes.now };
}

impl<'a> Cursor<'a> {
    /// The place before all bytes.
    pub fn new(bytes: &'a [u8]) -> Cursor<'a>
        ensures { result ≡ record { offset = 0; rest = bytes.now } }
    {
        Cursor { bytes, offset: 0 }
    }

    /// A cursor at the same place.
    pub fn copy(&self) -> Cursor<'a>
        ensures { result ≡ self.now }
    {
        Cursor {
            bytes: self.bytes,
            offset: self.offset,
        }
    }

    /// How many bytes stand before the place.
    pub fn offset(&self) -> usize
        ensures { result ≡ self.now.offset }
    {
        self.offset
    }

    /// The next byte. None exactly where none is left, and then the cursor is unchanged.
    pub fn take_u8(&mut self) -> Option<u8>
        ensures { Takes 1 self.old self.new result }
    {
        if self.offset == self.bytes.len() {
            return None;
        }
        let number = self.bytes[self.offset];
        self.offset += 1;
        Some(number)
    }

    /// The number in the next two bytes, the higher one first. None exactly where fewer than two are left, and then the
    /// cursor is unchanged.
    pub fn take_u16(&mut self) -> Option<u16>
        ensures { Takes 2 self.old self.new result }
    {
        if self.bytes.len() - self.offset < 2 {
            return None;
        }
        let number = BigEndian::read_u16(&self.bytes[self.offset..]);
        self.offset += 2;
        Some(number)
    }

    /// The number in the next four bytes, the highest one first. None exactly where fewer than four are left, and then
    /// the cursor is unchanged.
    pub fn take_u32(&mut self) -> Option<u32>
        ensures { Takes 4 self.old self.new result }
    {
        if self.bytes.len() - self.offset < 4 {
            return None;
        }
        let number = BigEndian::read_u32(&self.bytes[self.offset..]);
        self.offset += 4;
        Some(number)
    }
}
