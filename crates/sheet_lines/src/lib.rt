// A principal's line of a sheet: its name in 34 columns, and a letter for each right that it has.
#![tactic(auto)]

ghost use Rattle.std.specs.Prelude.{[], ◌∷◌, ◌+◌, ◌≤◌, ◌<◌, length, replicate};
ghost use Rattle.language.specs.Text.{when◌then◌else◌};
ghost use Rattle.language.specs.Sheet.{space, shown_name, shown_line};
ghost use Rattle.value_text.specs.Writing.{Written};
ghost use Rattle.sheet_lines.specs.Rights.{had_by};

use value_text::{copy_in, put_byte};

// Which rights a principal has on a variable.
#[derive(Clone, Copy)]
pub struct Had {
    pub read: bool,
    pub write: bool,
    pub append: bool,
    pub delegate: bool,
}

// Spaces: n of them.
fn put_spaces(out: &mut [u8], at: usize, n: usize) -> usize
    requires { at + n ≤ length out.old }
    ensures { Written out.old at (replicate n space) result out.new }
{
    let end = at + n;
    out[at..end].fill(b' ');
    end
}

// A name in 34 columns; of a longer one the first 33 characters and `~`.
pub fn put_name(out: &mut [u8], at: usize, name: &[u8]) -> usize
    requires { at + 34 ≤ length out.old }
    ensures { Written out.old at (shown_name name.now) result out.new }
{
    if name.len() <= 34 {
        let a = copy_in(out, at, name);
        return put_spaces(out, a, 34 - name.len());
    }
    let b = copy_in(out, at, &name[..33]);
    put_byte(out, b, b'~')
}

// A right's letter, or a point where it is missing.
fn put_right(out: &mut [u8], at: usize, had: bool, letter: u8) -> usize
    requires { at < length out.old }
    ensures { Written out.old at ((when had then letter else 46) ∷ []) result out.new }
{
    if had {
        return put_byte(out, at, letter);
    }
    put_byte(out, at, b'.')
}

// A principal's line.
pub fn put_line(out: &mut [u8], at: usize, name: &[u8], had: Had) -> usize
    requires { at + 40 ≤ length out.old }
    ensures { Written out.old at (shown_line name.now (had_by had)) result out.new }
{
    let a = put_name(out, at, name);
    let b = put_byte(out, a, b' ');
    let c = put_right(out, b, had.read, b'r');
    let d = put_right(out, c, had.write, b'w');
    let e = put_right(out, d, had.append, b'a');
    let f = put_right(out, e, had.delegate, b'd');
    put_byte(out, f, b'\n')
}
