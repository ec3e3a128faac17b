// Whether a word is a keyword, for every crate that reads names: of programs, or of document 01, whose keywords no state text holds.
#![tactic(auto)]

ghost use Rattle.std.specs.Prelude.{◌≡◌};
ghost use Rattle.language.specs.Text.{member, parts};
ghost use Rattle.language.specs.Identifiers.{base_keywords, price_keywords, keywords};

// Whether `w` is one of the words that spaces part.
fn among(words: &[u8], w: &[u8]) -> bool
    ensures { result ≡ member w.now (parts 32 words.now) }
{
    words
        .split(|b| *b == b' ')
        .any(|word| text::same_bytes(w, word))
}

// The keywords of document 01, by their first letter. No state text holds one as a name.
pub fn is_base_keyword(w: &[u8]) -> bool
    ensures { result ≡ member w.now base_keywords }
{
    match w {
        [b'a', ..] => among(b"all append as", w),
        [b'c', ..] => among(b"change create concat", w),
        [b'd', ..] => among(b"default delegate delegation delegator delete do", w),
        [b'e', ..] => among(b"exit equal", w),
        [b'f', ..] => among(b"foreach filtereach", w),
        [b'i', ..] => among(b"in", w),
        [b'l', ..] => among(b"local let", w),
        [b'n', ..] => among(b"notequal", w),
        [b'p', ..] => among(b"password principal", w),
        [b'r', ..] => among(b"read replacewith return", w),
        [b's', ..] => among(b"set split", w),
        [b't', ..] => among(b"to tolower", w),
        [b'w', ..] => among(b"write with", w),
        _ => false,
    }
}

// The operations on prices, request M-104. A state text may hold one as a name.
fn is_price_keyword(w: &[u8]) -> bool
    ensures { result ≡ member w.now price_keywords }
{
    match w {
        [b'a', ..] => among(b"add", w),
        [b'p', ..] => among(b"per", w),
        [b's', ..] => among(b"sub", w),
        [b't', ..] => among(b"times", w),
        _ => false,
    }
}

// The keywords of programs.
pub fn is_keyword(w: &[u8]) -> bool
    ensures { result ≡ member w.now keywords }
{
    is_base_keyword(w) || is_price_keyword(w)
}
