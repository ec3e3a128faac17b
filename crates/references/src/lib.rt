// Names in lines of a state text that refer to principals and variables, which stand elsewhere in it; the default delegator's line.
#![tactic(auto)]

ghost use Rattle.std.specs.Prelude.{List, ◌≤◌, length};
ghost use Rattle.text.specs.Parts.{part};
ghost use Rattle.store.specs.Rows.{Row, Rows, SomeRows, row_names};
ghost use Rattle.references.specs.Known.{Asking, KnownMeant, DelegatorMeant};

use text::Alphabet;

// A name that `stop` ends, one of those of the records from `from` up to `to`: the record's number, and where the name ends. What is found
// there is a name, so that no other test is needed.
pub fn known_at(
    text: &[u8],
    at: usize,
    stop: u8,
    from: usize,
    to: usize,
    slots: &[u32],
    count: usize,
) -> Option<(usize, usize)>
    requires { Asking text.now at stop from to count slots.now }
    ensures { (rows : List Row) → Rows rows (part text.now from to) count slots.now → KnownMeant (row_names rows) stop text.now at result }
{
    let e = lines::run_cut(text, at, Alphabet::Word, stop)?;
    let Some(found) = store::index::find(&text[from..to], slots, count, &text[at..e]) else {
        return None;
    };
    Some((found.number, e))
}

// The default delegator's line, which stands behind the principals: the number of its name, and where it ends.
pub fn delegator_at(
    text: &[u8],
    at: usize,
    from: usize,
    slots: &[u32],
    count: usize,
) -> Option<(usize, usize)>
    requires { (from ≤ at) × (at ≤ length text.now) × SomeRows (part text.now from at) count slots.now }
    ensures { (rows : List Row) → Rows rows (part text.now from at) count slots.now → DelegatorMeant (row_names rows) text.now at result }
{
    if lines::byte_at(text, at) != b'D' || lines::byte_at(text, at + 1) != b'\t' {
        return None;
    }
    let (number, e) = known_at(text, at + 2, b'\n', from, at, slots, count)?;
    Some((number, e + 1))
}
