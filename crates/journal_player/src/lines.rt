//! The lines of a text, one after another.
ghost use Rattle.std.specs.Prelude.{◌≡◌, ◌==◌, ◌-◌, ◌<◌, [], ◌∷◌, drop, length, position, IfSome, IfNone};
ghost use Rattle.journal_model.specs.Lines.{lines_of};

/// The first line, and the text after its line feed; None exactly where the text has no line. Linear in the line.
pub fn next_line(text: &[u8]) -> Option<(&[u8], &[u8])>
    ensures line { IfSome result (λ p. lines_of text.now ≡ p.0.now ∷ lines_of p.1.now) }
    ensures shorter { IfSome result (λ p. length p.1.now < length text.now) }
    ensures rest { IfSome result (λ p. p.1.now ≡ drop (length text.now - length p.1.now) text.now) }
    ensures none { IfNone result (text.now ≡ []) }
{
    if text.is_empty() {
        return None;
    }
    match line_feed_at(text) {
        Some(end) => Some((&text[..end], &text[end + 1..])),
        None => Some((text, &text[text.len()..])),
    }
}

// Where the first line feed stands.
fn line_feed_at(text: &[u8]) -> Option<usize>
    ensures at { result ≡ position (λ b. b == 10) text.now }
    ensures in_range { IfSome result (λ i. i < length text.now) }
{
    text.iter().position(|byte| *byte == b'\n')
}
