// The sheet of a shared variable: the lines of all principals, in order of creation. Lists of marks say which rights each has: how long its
// shortest chain is, or UNREACHED.
#![tactic(auto)]

ghost use Rattle.std.specs.Prelude.{◌≡◌, List, ◌+◌, ◌≤◌, ◌<◌, length};
ghost use Rattle.language.specs.Text.{present};
ghost use Rattle.language.specs.Syntax.{Name};
ghost use Rattle.language.specs.State.{Store};
ghost use Rattle.language.specs.Sheet.{shown_line, sheet_text};
ghost use Rattle.store.specs.Held.{Principals};
ghost use Rattle.store.specs.Rows.{Row, Rows, SomeRows, row_at};
ghost use Rattle.named_rights.specs.Numbers.{length_marked};
ghost use Rattle.value_text.specs.Writing.{Written};
ghost use Rattle.sheet_lines.specs.Rights.{had_by};
ghost use Rattle.sheet_page.specs.Marks.{Within, HadAt, Printable, Marked};

use search_steps::UNREACHED;
use sheet_lines::{Had, put_line};
use store::index::nth;

// Whether a mark says that there is a chain.
fn is_reached(mark: u16) -> bool
    ensures { result ≡ present (length_marked mark) }
{
    mark != UNREACHED
}

// The rights of the principal of number i.
fn had_at(reads: &[u16], writes: &[u16], appends: &[u16], delegates: &[u16], i: usize) -> Had
    requires { Within i (length reads.now) (length writes.now) (length appends.now) (length delegates.now) }
    ensures { HadAt reads.now writes.now appends.now delegates.now i result }
{
    let read = is_reached(reads[i]);
    let write = is_reached(writes[i]);
    let append = is_reached(appends[i]);
    let delegate = is_reached(delegates[i]);
    Had {
        read,
        write,
        append,
        delegate,
    }
}

// The line of the principal of number i.
fn put_one(
    text: &[u8],
    slots: &[u32],
    count: usize,
    i: usize,
    had: Had,
    out: &mut [u8],
    at: usize,
) -> usize
    requires { SomeRows text.now count slots.now × (i < count) × (at + 40 ≤ length out.old) }
    ensures { (rows : List Row) → Rows rows text.now count slots.now
        → Written out.old at (shown_line (row_at rows i).name (had_by had)) result out.new }
{
    let place = nth(text, slots, count, i);
    let from = place.start + 2;
    let to = place.mid;
    put_line(out, at, &text[from..to], had)
}

// The lines of all principals, `count` of them. Their records are `text`, found by `slots`.
pub fn put_sheet(
    text: &[u8],
    slots: &[u32],
    count: usize,
    reads: &[u16],
    writes: &[u16],
    appends: &[u16],
    delegates: &[u16],
    out: &mut [u8],
) -> usize
    requires { Printable text.now slots.now count (length reads.now) (length writes.now) (length appends.now) (length delegates.now) (length out.old) }
    ensures { (s : Store) (x : Name) → Principals s.principals text.now count slots.now
        → Marked s x reads.now writes.now appends.now delegates.now
        → Written out.old 0 (sheet_text s x) result out.new }
{
    let mut p = 0;
    for i in 0..count {
        let had = had_at(reads, writes, appends, delegates, i);
        p = put_one(text, slots, count, i, had, out, p);
    }
    p
}
