//! Bytes cut at a separator, piece by piece.
ghost use Rattle.std.specs.Prelude.{◌≡◌, ◌<◌, ◌≢◌, ℕ, length, drop, slice_get, slice_index, IfSome, IfNone};
ghost use Rattle.std.specs.Option.{option_copied};
ghost use Rattle.journal_model.specs.Fields.{nothing_left, pieces};

use std::marker::Model;

/// The pieces of some bytes between the separators, taken one after the other. Contracts see the list of the pieces
/// that are left.
#[derive(Drop)]
pub struct Pieces<'a> {
    rest: &'a [u8],
    separator: u8,
    is_over: bool,
}

impl<'a> Model for Pieces<'a> {
    ghost use Rattle.std.specs.Prelude.{ℕ, List};
    ghost use Rattle.event_lines.specs.Pieces.{pieces_left};

    ghost Value = { List (List ℕ) };

    ghost view = { λ p. pieces_left p.is_over p.separator p.rest.now };
}

impl<'a> Pieces<'a> {
    /// All pieces of the bytes.
    pub fn of(bytes: &'a [u8], separator: u8) -> Pieces<'a>
        ensures { result ≡ pieces separator bytes.now }
    {
        Pieces {
            rest: bytes,
            separator,
            is_over: false,
        }
    }

    /// Takes the first piece; None where none is left. Linear time in the piece.
    #[inline(always)]
    pub fn next(&mut self) -> Option<&'a [u8]>
        ensures first { option_copied result ≡ slice_get self.old 0 }
        ensures rest { self.new ≡ drop 1 self.old }
    {
        if self.is_over {
            return None;
        }
        let bytes = self.rest;
        let Some(end) = first_place(bytes, self.separator) else {
            self.is_over = true;
            return Some(bytes);
        };
        self.rest = &bytes[end + 1..];
        Some(&bytes[..end])
    }

    /// Some exactly where no piece is left.
    pub fn end(&self) -> Option<()>
        ensures { result ≡ nothing_left self.now }
    {
        if self.is_over { Some(()) } else { None }
    }
}

/// The place of the first such byte; None where there is none.
pub fn first_place(bytes: &[u8], byte: u8) -> Option<usize>
    ensures within { IfSome result (λ i. i < length bytes.now) }
    ensures found { IfSome result (λ i. slice_index bytes.now i ≡ byte) }
    ensures before { IfSome result (λ i. (k : ℕ) → k < i → slice_index bytes.now k ≢ byte) }
    ensures none { IfNone result ((k : ℕ) → k < length bytes.now → slice_index bytes.now k ≢ byte) }
{
    for (i, b) in bytes.iter().enumerate() {
        if *b == byte {
            return Some(i);
        }
    }
    None
}
