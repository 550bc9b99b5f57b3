//! The words of a text, which single spaces part.

ghost use Rattle.std.specs.Prelude.{◌≡◌, ◌∷◌, [], MatchOption, option_map};
ghost use Rattle.trace_text.specs.Grammar.{words_of, one_word, two_words, three_words, five_words};

/// The first word and the text behind its space, or None where the text is one word.
pub fn cut(text: &[u8]) -> Option<(&[u8], &[u8])>
    ensures { MatchOption result (words_of text.now ≡ text.now ∷ []) (λ parts. words_of text.now ≡ parts.0.now ∷ words_of parts.1.now) }
{
    for (i, byte) in text.iter().enumerate() {
        if *byte == b' ' {
            return Some((&text[..i], &text[i + 1..]));
        }
    }
    None
}

/// The word of a text that is one word.
pub fn one(text: &[u8]) -> Option<&[u8]>
    ensures { one_word (words_of text.now) ≡ option_map (λ word. word.now) result }
{
    match cut(text) {
        None => Some(text),
        Some(_) => None,
    }
}

/// The words of a text of two.
pub fn two(text: &[u8]) -> Option<(&[u8], &[u8])>
    ensures { two_words (words_of text.now) ≡ option_map (λ words. (words.0.now, words.1.now)) result }
{
    let (first, rest) = cut(text)?;
    let second = one(rest)?;
    Some((first, second))
}

/// The words of a text of three.
pub fn three(text: &[u8]) -> Option<(&[u8], &[u8], &[u8])>
    ensures { three_words (words_of text.now) ≡ option_map (λ words. (words.0.now, words.1.now, words.2.now)) result }
{
    let (first, rest) = cut(text)?;
    let (second, third) = two(rest)?;
    Some((first, second, third))
}

/// The words of a text of five.
pub fn five(text: &[u8]) -> Option<(&[u8], &[u8], &[u8], &[u8], &[u8])>
    ensures { five_words (words_of text.now) ≡ option_map (λ words. (words.0.now, words.1.now, words.2.now, words.3.now, words.4.now)) result }
{
    let (first, rest) = cut(text)?;
    let (second, rest) = cut(rest)?;
    let (third, fourth, fifth) = three(rest)?;
    Some((first, second, third, fourth, fifth))
}
