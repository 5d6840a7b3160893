//! The words of a line.
ghost use Rattle.std.specs.Prelude.{◌≡◌, ◌↔◌, [], ◌∷◌, IsTrue, MatchOption, IfSome};
ghost use Rattle.std.specs.Str.{bytes_eq};
ghost use Rattle.service.specs.Words.{words, after_word, AreArguments, number_of};

use names::texts::{cut, trim_start};
use std::str;

/// The most digits of a number.
const MOST_DIGITS: usize = 10;

/// The first word and what stands after it, if there is a word.
pub(crate) fn next_word(text: &[u8]) -> Option<(&[u8], &[u8])>
    ensures found { MatchOption result (words text.now ≡ []) (λ parts. words text.now ≡ parts.0.now ∷ words parts.1.now) }
    ensures rest { IfSome result (λ parts. parts.1.now ≡ after_word text.now) }
{
    let text = trim_start(text);
    if text.is_empty() {
        return None;
    }
    let (word, rest) = cut(text, b' ');
    Some((word, rest.unwrap_or(&[])))
}

/// Whether a word is this one.
pub(crate) fn is_same(word: &[u8], other: &[u8]) -> bool
    ensures { result ≡ bytes_eq word.now other.now }
{
    word == other
}

/// Whether the text has this word and no other.
pub(crate) fn is_word(text: &[u8], word: &[u8]) -> bool
    ensures { IsTrue result ↔ (words text.now ≡ word.now ∷ []) }
{
    matches!(split_words(text), Arguments::One(first) if first == word)
}

/// The words of a text, where there are at most two.
#[derive(Clone, Copy)]
pub(crate) enum Arguments<'a> {
    Nothing,
    One(&'a [u8]),
    Two(&'a [u8], &'a [u8]),
    More,
}

/// The words of the text.
pub(crate) fn split_words(text: &[u8]) -> Arguments<'_>
    ensures { AreArguments (words text.now) result }
{
    let Some((first, rest)) = next_word(text) else {
        return Arguments::Nothing;
    };
    let Some((second, rest)) = next_word(rest) else {
        return Arguments::One(first);
    };
    match next_word(rest) {
        Some(_) => Arguments::More,
        None => Arguments::Two(first, second),
    }
}

/// The number that these digits write, if they are 1 to 10 and the first isn't 0. A sign, which `parse` reads, is below `0` too.
pub(crate) fn number(text: &[u8]) -> Option<u64>
    ensures { result ≡ number_of text.now }
{
    if text.is_empty() || text[0] <= b'0' || text.len() > MOST_DIGITS {
        return None;
    }
    str::from_utf8(text).ok()?.parse().ok()
}
