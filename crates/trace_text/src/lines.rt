//! The lines of a trace's bytes.

ghost use Rattle.std.specs.Prelude.{◌≡◌, ◌∷◌, ◌<◌, [], length, MatchOption, IfSome};
ghost use Rattle.trace_text.specs.Lines.{lines_of};

use memchr::memchr;

/// The first line of a text, with its newline, and the text behind it; None where there is no text.
/// Bytes without a newline are a line too.
pub fn cut_line(text: &[u8]) -> Option<(&[u8], &[u8])>
    ensures lines { MatchOption result (lines_of text.now ≡ []) (λ parts. lines_of text.now ≡ parts.0.now ∷ lines_of parts.1.now) }
    ensures shorter { IfSome result (λ parts. length parts.1.now < length text.now) }
{
    match memchr(b'\n', text) {
        Some(i) => Some((&text[..i + 1], &text[i + 1..])),
        None if text.is_empty() => None,
        None => Some((text, &text[text.len()..])),
    }
}
