//! Cutting and trimming texts. A space is the byte 32 alone.
ghost use Rattle.std.specs.Prelude.{◌≡◌, ◌==◌, ◌↔◌, [], ◌∷◌, ◌++◌, position, IsTrue, IsSome, IfSome, MatchOption};
ghost use Rattle.std.specs.List.{before_first, after_first, list_any};
ghost use Rattle.names.specs.Texts.{is_blank, pieces, trim, trim_end, trim_start};

/// The first place of the byte.
fn find(text: &[u8], byte: u8) -> Option<usize>
    ensures { result ≡ position (λ b. b == byte) text.now }
{
    text.iter().position(|b| *b == byte)
}

/// What stands before the first place of the byte, and what stands after it, if it stands in the text at all.
pub fn cut(text: &[u8], byte: u8) -> (&[u8], Option<&[u8]>)
    ensures found { IsSome result.1 ↔ IsTrue (list_any (λ b. b == byte) text.now) }
    ensures before { result.0.now ≡ before_first (λ b. b == byte) text.now }
    ensures after { IfSome result.1 (λ rest. rest.now ≡ after_first (λ b. b == byte) text.now) }
    ensures pieces { MatchOption result.1 (pieces byte text.now ≡ result.0.now ∷ [])
        (λ rest. pieces byte text.now ≡ result.0.now ∷ pieces byte rest.now) }
    ensures whole { MatchOption result.1 (text.now ≡ result.0.now)
        (λ rest. text.now ≡ result.0.now ++ byte ∷ rest.now) }
{
    match find(text, byte) {
        Some(place) => (&text[..place], Some(&text[place + 1..])),
        None => (text, None),
    }
}

/// Whether there is nothing but spaces.
pub fn is_blank(text: &[u8]) -> bool
    ensures { result ≡ is_blank text.now }
{
    trim_start(text).is_empty()
}

/// The text without the spaces in front.
pub fn trim_start(text: &[u8]) -> &[u8]
    ensures { result.now ≡ trim_start text.now }
{
    for (i, byte) in text.iter().enumerate() {
        if *byte != b' ' {
            return &text[i..];
        }
    }
    &[]
}

/// The text without the spaces at its end.
pub fn trim_end(text: &[u8]) -> &[u8]
    ensures { result.now ≡ trim_end text.now }
{
    let mut end = text.len();
    while end > 0 && text[end - 1] == b' ' {
        end -= 1;
    }
    &text[..end]
}

/// The text without its outer spaces.
pub fn trim(text: &[u8]) -> &[u8]
    ensures { result.now ≡ trim text.now }
{
    trim_end(trim_start(text))
}
