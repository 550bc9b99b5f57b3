//! The reading of trace lines.

ghost use Rattle.std.specs.Prelude.{◌≡◌, IfSome};
ghost use Rattle.trace_text.specs.Grammar.{words_of, body_in, line_in, line_at};
ghost use Rattle.trace_text.specs.Ranges.{IsInRange};

use crate::fields::body_behind;
use crate::keyword::keyword_named;
use crate::numbers::decimal;
use crate::trace_line::{TraceBody, TraceLine};
use crate::words::cut;

/// What the words behind the counts say.
#[tactic(auto, unfolding(crate::specs::Grammar::body_in))]
fn body(words: &[u8]) -> Option<TraceBody>
    ensures value { result ≡ body_in (words_of words.now) }
    ensures range { IfSome result IsInRange }
{
    match cut(words) {
        Some((first, fields)) => body_behind(keyword_named(first)?, fields),
        None if words == b"turns".as_slice() => Some(TraceBody::Turns),
        None => None,
    }
}

/// What the words of a line say.
#[tactic(auto, unfolding(crate::specs::Grammar::line_in))]
fn line_of_words(words: &[u8]) -> Option<TraceLine>
    ensures value { result ≡ line_in (words_of words.now) }
    ensures range { IfSome result (λ line. IsInRange line.body) }
{
    let (first, rest) = cut(words)?;
    let (second, rest) = cut(rest)?;
    let own = decimal(first)?;
    let shadow = decimal(second)?;
    let body = body(rest)?;
    Some(TraceLine { own, shadow, body })
}

/// What a trace line says, or None exactly where the bytes, of which the last is the newline,
/// are none. It takes no memory.
#[tactic(auto, unfolding(crate::specs::Grammar::line_at))]
pub fn parse_line(bytes: &[u8]) -> Option<TraceLine>
    ensures value { result ≡ line_at bytes.now }
    ensures range { IfSome result (λ line. IsInRange line.body) }
{
    let words = bytes.strip_suffix(b"\n")?;
    line_of_words(words)
}
