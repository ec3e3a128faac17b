// Programs, cut out of a stream of bytes: each ends with a line that says `***`. The bytes go into a buffer that the caller lends; what finds no room
// there is dropped, and one byte more room than the longest program needs is enough to know that a program is too long.
#![tactic(auto)]

ghost use Rattle.std.specs.Prelude.{◌≤◌, ◌≡◌, [], ◌∷◌, ◌++◌, length, take};
ghost use Rattle.language.specs.Text.{Text};
ghost use Rattle.stream.specs.Stream.{Stars, Reads, last_line, is_last};

// How many bytes of the program so far the buffer has; and of its last line how many stars it is, 4 where it is not up to three stars and nothing else.
#[derive(Clone, Copy)]
pub struct Reading {
    pub len: usize,
    pub stars: usize,
}

// Before the first byte of a program.
pub fn fresh() -> Reading
    ensures { (program : Text) → Reads [] program result }
{
    Reading { len: 0, stars: 0 }
}

// Whether the last line so far says `***`.
pub fn is_last(r: Reading) -> bool
    ensures { (stream program : Text) → Reads stream program r → result ≡ is_last stream }
{
    r.stars == 3
}

// How many bytes of the buffer are the program's.
pub fn kept(r: Reading, program: &[u8]) -> usize
    ensures upper_bound { result ≤ length program.now }
    ensures program_value { (stream : Text) → Reads stream program.now r
        → take result program.now ≡ take (length program.now) stream }
{
    let len = r.len;
    if len <= program.len() {
        return len;
    }
    program.len()
}

// The stars of a line with one byte more.
fn more_stars(stars: usize, b: u8) -> usize
    ensures { (stream : Text) → Stars (last_line stream) stars → Stars (last_line (stream ++ (b ∷ []))) result }
{
    if b == b'\n' {
        return 0;
    }
    if b != b'*' {
        return 4;
    }
    if stars < 3 {
        return stars + 1;
    }
    4
}

// One byte more.
pub fn with_byte(program: &mut [u8], r: Reading, b: u8) -> Reading
    ensures { (stream : Text) → Reads stream program.old r → Reads (stream ++ (b ∷ [])) program.new result }
{
    let stars = more_stars(r.stars, b);
    let len = r.len;
    if len < program.len() {
        program[len] = b;
        return Reading {
            len: len + 1,
            stars,
        };
    }
    Reading { len, stars }
}
