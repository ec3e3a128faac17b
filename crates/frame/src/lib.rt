// The frame of a state text: its first line, and the zeros behind its last. Document 01, "State text".
#![tactic(auto)]

ghost use Rattle.std.specs.Prelude.{◌≡◌, ◌≤◌, length, drop};
ghost use Rattle.frame.specs.Edges.{HeadMeant, FormerHeadMeant, is_zero};

// Whether the server is open, and where the line ends.
pub fn head_at(text: &[u8]) -> Option<(bool, usize)>
    ensures { HeadMeant text.now result }
{
    if lines::byte_at(text, 1) != b'\n' {
        return None;
    }
    match lines::byte_at(text, 0) {
        b'O' => Some((true, 2)),
        b'C' => Some((false, 2)),
        _ => None,
    }
}

// The first line as it was before each principal had a count: the number of programs stands in it, and nobody asks for it any more.
pub fn former_head_at(text: &[u8]) -> Option<(bool, usize)>
    ensures { FormerHeadMeant text.now result }
{
    if lines::byte_at(text, 1) != b'\t' {
        return None;
    }
    let (_, e) = lines::number_at(text, 2)?;
    match lines::byte_at(text, 0) {
        b'O' => Some((true, e + 1)),
        b'C' => Some((false, e + 1)),
        _ => None,
    }
}

// Whether all bytes from `at` on are 0. The loop has no exit, so that many bytes are looked at together.
pub fn zeros_from(text: &[u8], at: usize) -> bool
    requires { (at ≤ length text.now) × (length text.now ≤ 65536) }
    ensures { result ≡ is_zero (drop at text.now) }
{
    let rest = &text[at..];
    let mut seen = false;
    for b in rest {
        if *b > 0 {
            seen = true;
        }
    }
    !seen
}
