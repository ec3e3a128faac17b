// Changes of the records that a text keeps: the text stands in the first `len` bytes of a buffer, and each change returns its new length.
ghost use Rattle.std.specs.Prelude.{◌≡◌, List, [], ◌∷◌, ◌++◌, map, ◌+◌, ◌-◌, ◌≤◌, ◌<◌, T, length, set, take};
ghost use Rattle.std.proofs.Math.Option.{none, some};
ghost use Rattle.language.specs.Text.{Text, joined, distinct};
ghost use Rattle.language.specs.Syntax.{Name};
ghost use Rattle.language.specs.State.{Element, Value, list, Principal, Variable, value_in, put};
ghost use Rattle.language.specs.Encode.{element_text, value_text};
ghost use Rattle.language.specs.Commands.{changed};
ghost use Rattle.store.specs.Held.{Principals, Variables};
ghost use Rattle.store.specs.Rows.{Row, Rows, position};
ghost use Rattle.edits.specs.Changes.{principal_names, variable_names, with_password, Outside, SomeSpot, Respelled, SomeValue, SomeElements, SomeBare, SomeKept, SomePassword};
ghost use Rattle.store.specs.Contents.{principal_at};

use contents::{count_at, password_of};
use splice::{shift, splice};
use store::index::nth;

// A record gets `src` in place of its bytes from `from` up to `to`, and the slots of later records move.
fn rewrite(
    buf: &mut [u8],
    len: usize,
    slots: &mut [u32],
    count: usize,
    number: usize,
    from: usize,
    to: usize,
    src: &[u8],
) -> usize
    requires { (length buf.old ≤ 65536) × (len ≤ length buf.old) × SomeSpot (take len buf.old) count slots.old number from to
        × (from + length src.now + (len - to) ≤ length buf.old) }
    ensures size { result ≡ from + length src.now + (len - to) }
    ensures outside { Outside buf.old buf.new result slots.old slots.new count }
    ensures held { (rows : List Row) (row : Row) → Rows rows (take len buf.old) count slots.old
        → Respelled rows number from to src.now row → Rows (set rows number row) (take result buf.new) count slots.new }
{
    let n = splice(buf, len, from, to, src);
    let old = (to - from) as u32;
    let new = src.len() as u32;
    let next = number + 1;
    shift(slots, next, count, old, new);
    n
}

// A variable gets another value.
pub fn set_value(
    buf: &mut [u8],
    len: usize,
    slots: &mut [u32],
    count: usize,
    number: usize,
    value: &[u8],
) -> usize
    requires { (length buf.old ≤ 65536) × (len ≤ length buf.old) × SomeValue (take len buf.old) count slots.old number value.now (length buf.old) }
    ensures outside { Outside buf.old buf.new result slots.old slots.new count }
    ensures held { (vs : List Variable) (x : Name) (v : Value) → Variables vs (take len buf.old) count slots.old
        → number ≡ position (variable_names vs) x → value.now ≡ value_text v → Variables (put x v vs) (take result buf.new) count slots.new }
{
    let place = nth(&buf[..len], slots, count, number);
    let mid = place.mid;
    let from = mid + 1;
    let to = place.end;
    rewrite(buf, len, slots, count, number, from, to, value)
}

// A list gets more elements at its end: their text.
pub fn append_value(
    buf: &mut [u8],
    len: usize,
    slots: &mut [u32],
    count: usize,
    number: usize,
    more: &[u8],
) -> usize
    requires { (length buf.old ≤ 65536) × (len ≤ length buf.old) × SomeElements (take len buf.old) count slots.old number more.now (length buf.old) }
    ensures outside { Outside buf.old buf.new result slots.old slots.new count }
    ensures held { (vs : List Variable) (x : Name) (es fs : List Element) → Variables vs (take len buf.old) count slots.old
        → number ≡ position (variable_names vs) x → value_in vs x ≡ some (list es) → more.now ≡ joined element_text fs
        → Variables (put x (list (es ++ fs)) vs) (take result buf.new) count slots.new }
{
    let place = nth(&buf[..len], slots, count, number);
    let end = place.end;
    rewrite(buf, len, slots, count, number, end, end, more)
}

// The line of a principal without a password becomes that of one whose password is empty.
fn open_line(buf: &mut [u8], len: usize, slots: &mut [u32], count: usize, number: usize) -> usize
    requires { (length buf.old ≤ 65536) × (len + 1 ≤ length buf.old) × SomeBare (take len buf.old) count slots.old number }
    ensures size { result ≡ len + 1 }
    ensures outside { Outside buf.old buf.new result slots.old slots.new count }
    ensures held { (ks : List Principal) → Principals ks (take len buf.old) count slots.old → (principal_at ks number).password ≡ none
        → Principals (with_password ks number []) (take result buf.new) count slots.new }
{
    let place = nth(&buf[..len], slots, count, number);
    let start = place.start;
    let mid = place.mid;
    let n = rewrite(buf, len, slots, count, number, mid, mid, b"\t");
    buf[start] = b'P';
    n
}

// Another password in the line of a principal that has one: up to the tab before the count, which stays.
fn write_password(
    buf: &mut [u8],
    len: usize,
    slots: &mut [u32],
    count: usize,
    number: usize,
    password: &[u8],
) -> usize
    requires { (length buf.old ≤ 65536) × (len ≤ length buf.old) × SomeKept (take len buf.old) count slots.old number password.now (length buf.old) }
    ensures outside { Outside buf.old buf.new result slots.old slots.new count }
    ensures held { (ks : List Principal) (old : Text) → Principals ks (take len buf.old) count slots.old → (principal_at ks number).password ≡ some old
        → Principals (with_password ks number password.now) (take result buf.new) count slots.new }
{
    let place = nth(&buf[..len], slots, count, number);
    let mid = place.mid;
    let from = mid + 1;
    let digits = count_at(&buf[..len], slots, count, number);
    let to = digits - 1;
    rewrite(buf, len, slots, count, number, from, to, password)
}

// A principal's password is `password`; its count stays.
pub fn set_password(
    buf: &mut [u8],
    len: usize,
    slots: &mut [u32],
    count: usize,
    number: usize,
    password: &[u8],
) -> usize
    requires { (length buf.old ≤ 65536) × (len ≤ length buf.old)
        × SomePassword (take len buf.old) count slots.old number password.now (length buf.old) }
    ensures outside { Outside buf.old buf.new result slots.old slots.new count }
    ensures held { (ks : List Principal) (p : Name) → Principals ks (take len buf.old) count slots.old → T (distinct (principal_names ks))
        → number ≡ position (principal_names ks) p
        → Principals (map (changed p password.now) ks) (take result buf.new) count slots.new }
{
    match password_of(&buf[..len], slots, count, number) {
        Some(_) => write_password(buf, len, slots, count, number, password),
        None => {
            let n = open_line(buf, len, slots, count, number);
            write_password(buf, n, slots, count, number, password)
        }
    }
}
