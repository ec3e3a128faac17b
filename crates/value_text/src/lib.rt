// The writing of a value's text, piece by piece.
#![tactic(auto)]

ghost use Rattle.std.specs.Prelude.{[], ◌∷◌, ◌+◌, ◌≤◌, ◌<◌, length};
ghost use Rattle.language.specs.Text.{bytes};
ghost use Rattle.language.specs.State.{string};
ghost use Rattle.language.specs.Encode.{line_of, element_text};
ghost use Rattle.value_text.specs.Writing.{Written, field_line};

// Copies src to out, from `at` on. Where it ends.
pub fn copy_in(out: &mut [u8], at: usize, src: &[u8]) -> usize
    requires { at + length src.now ≤ length out.old }
    ensures { Written out.old at src.now result out.new }
{
    for (i, b) in src.iter().enumerate() {
        out[at + i] = *b;
    }
    at + src.len()
}

pub fn put_byte(out: &mut [u8], at: usize, b: u8) -> usize
    requires { at < length out.old }
    ensures { Written out.old at (b ∷ []) result out.new }
{
    out[at] = b;
    at + 1
}

// The text of a string, as a value or as an element of a list.
pub fn put_string(out: &mut [u8], at: usize, text: &[u8]) -> usize
    requires { at + length text.now + 3 ≤ length out.old }
    ensures { Written out.old at (element_text (string text.now)) result out.new }
{
    let a = copy_in(out, at, b"S\t");
    let b = copy_in(out, a, text);
    put_byte(out, b, b'\n')
}

// The first line of a record; its fields follow.
pub fn put_record(out: &mut [u8], at: usize) -> usize
    requires { at + 2 ≤ length out.old }
    ensures { Written out.old at (line_of (bytes "R" ∷ [])) result out.new }
{
    copy_in(out, at, b"R\n")
}

// The line of a field.
pub fn put_field(out: &mut [u8], at: usize, label: &[u8], text: &[u8]) -> usize
    requires { at + length label.now + length text.now + 4 ≤ length out.old }
    ensures { Written out.old at (field_line label.now text.now) result out.new }
{
    let a = copy_in(out, at, b"F\t");
    let b = copy_in(out, a, label);
    let c = put_byte(out, b, b'\t');
    let d = copy_in(out, c, text);
    put_byte(out, d, b'\n')
}

// The first line of a list; its elements follow.
pub fn put_list(out: &mut [u8], at: usize) -> usize
    requires { at + 2 ≤ length out.old }
    ensures { Written out.old at (line_of (bytes "L" ∷ [])) result out.new }
{
    copy_in(out, at, b"L\n")
}
