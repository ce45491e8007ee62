//! Local names, which stand in place.
ghost use Rattle.std.specs.Prelude.{◌≡◌, ◌↔◌, ◌≤◌, IfSome, IsSome, codes, length};
ghost use Rattle.std.specs.Cmp.Lexicographic.{slice_cmp};
ghost use Rattle.std.specs.Ordering.{nat_cmp};

use std::cmp::Ordering;
use std::marker::Model;

/// A text of at most 16 bytes that stands in the value itself, so that a copy takes no memory. Contracts see its bytes.
#[derive(Clone, Copy, Debug)]
pub struct LocalName {
    bytes: [u8; 16],
    len: u8,
}

impl Model for LocalName {
    ghost use Rattle.std.specs.Prelude.{ℕ, ◌≡◌, ◌≤◌, List, length, take};
    ghost use Rattle.std.proofs.Common.{length-take-le};
    ghost use Rattle.behaviour_lang.specs.Names.{padded};

    ghost Value = { List ℕ };

    ghost view = { λ n. take n.len n.bytes };

    ghost invariant = { λ n. (n.len ≤ length n.bytes) × (padded (take n.len n.bytes) ≡ n.bytes) };

    ghost inverse = { λ text. record { bytes = padded text; len = length text } };

    ghost inverse_ok = { λ n h i. record { bytes = h.1 i; len = length-take-le n.len n.bytes h.0 i } };
}

impl LocalName {
    /// The name of that text; None exactly where it has more than 16 bytes. Constant time.
    pub fn new(text: &[u8]) -> Option<LocalName>
        ensures fits { IsSome result ↔ (length text.now ≤ 16) }
        ensures value { IfSome result (λ name. name ≡ text.now) }
    {
        if text.len() > 16 {
            return None;
        }
        let mut bytes = [0; 16];
        bytes[..text.len()].copy_from_slice(text);
        Some(LocalName {
            bytes,
            len: text.len() as u8,
        })
    }

    /// The name `self`. Constant time.
    pub fn own() -> LocalName
        ensures { result ≡ codes "self" }
    {
        LocalName {
            bytes: *b"self\0\0\0\0\0\0\0\0\0\0\0\0",
            len: 4,
        }
    }

    /// The bytes of its text.
    pub fn as_slice(&self) -> &[u8]
        ensures { result.now ≡ self.now }
    {
        &self.bytes[..self.len as usize]
    }

    /// How its text stands to that of the other, byte by byte. Constant time.
    pub(crate) fn order(&self, other: &LocalName) -> Ordering
        ensures { result ≡ slice_cmp nat_cmp self.now other.now }
    {
        // Texts that differ by zeros at the end alone are the same bytes in place, and of two such the shorter is less.
        number_order(&self.bytes, &other.bytes).then(self.len.cmp(&other.len))
    }
}

// How the bytes stand to the others: the first that differs decides, and so it does of two numbers whose highest byte is the
// first. So one comparison takes the place of sixteen.
fn number_order(bytes: &[u8; 16], others: &[u8; 16]) -> Ordering
    ensures { result ≡ slice_cmp nat_cmp bytes.now others.now }
{
    u128::from_be_bytes(*bytes).cmp(&u128::from_be_bytes(*others))
}
