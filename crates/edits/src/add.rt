// Records added at the end of a text: the text stands in the first `len` bytes of a buffer, and each addition returns its new length.
ghost use Rattle.std.specs.Prelude.{◌≡◌, List, [], ◌∷◌, ◌++◌, ◌+◌, ◌≤◌, ◌<◌, T, length, set, take};
ghost use Rattle.std.proofs.Math.Option.{some};
ghost use Rattle.language.specs.State.{Value, Principal, Variable};
ghost use Rattle.language.specs.Identifiers.{is_name};
ghost use Rattle.language.specs.Encode.{value_text};
ghost use Rattle.store.specs.Held.{Principals, Variables, slot, places};
ghost use Rattle.splice.specs.Splices.{over};
ghost use Rattle.edits.specs.Changes.{Outside};

use splice::copy;
use store::index::hash;

// A record's letter, a tab, its name and a tab; the place after them.
fn head(buf: &mut [u8], at: usize, letter: u8, name: &[u8]) -> usize
    requires { at + 3 + length name.now ≤ length buf.old }
    ensures size { result ≡ at + 3 + length name.now }
    ensures left { buf.new ≡ over buf.old at (letter ∷ 9 ∷ (name.now ++ (9 ∷ []))) }
{
    let tab = at + 1;
    let first = at + 2;
    let last = first + name.len();
    buf[at] = letter;
    buf[tab] = b'\t';
    copy(buf, first, name);
    buf[last] = b'\t';
    last + 1
}

// The slot of a record that starts at `at`.
fn note(slots: &mut [u32], count: usize, name: &[u8], at: usize)
    requires { (count < length slots.old) × (at < places) }
    ensures { slots.new ≡ set slots.old count (slot name.now at) }
{
    let p = hash(name);
    let place = at as u32;
    slots[count] = p * 131072 + place;
}

// A new variable, last.
pub fn add_variable(
    buf: &mut [u8],
    len: usize,
    slots: &mut [u32],
    count: usize,
    name: &[u8],
    value: &[u8],
) -> usize
    requires { (length buf.old ≤ places) × (len + 3 + length name.now + length value.now ≤ length buf.old) × (count < length slots.old) }
    ensures size { result ≡ len + 3 + length name.now + length value.now }
    ensures outside { Outside buf.old buf.new result slots.old slots.new (count + 1) }
    ensures held { (vs : List Variable) (v : Value) → Variables vs (take len buf.old) count slots.old → T (is_name name.entry.now)
        → value.now ≡ value_text v
        → Variables (vs ++ (record { name = name.entry.now; value = v } ∷ [])) (take result buf.new) (count + 1) slots.new }
{
    let body = head(buf, len, b'V', name);
    copy(buf, body, value);
    note(slots, count, name, len);
    body + value.len()
}

// A new principal, last: no program of it was completed yet.
pub fn add_principal(
    buf: &mut [u8],
    len: usize,
    slots: &mut [u32],
    count: usize,
    name: &[u8],
    password: &[u8],
) -> usize
    requires { (length buf.old ≤ 65536) × (len + 6 + length name.now + length password.now ≤ length buf.old) × (count < length slots.old) }
    ensures size { result ≡ len + 6 + length name.now + length password.now }
    ensures outside { Outside buf.old buf.new result slots.old slots.new (count + 1) }
    ensures held { (ks : List Principal) → Principals ks (take len buf.old) count slots.old → T (is_name name.entry.now)
        → Principals (ks ++ (record { name = name.entry.now; password = some password.now; count = 0 } ∷ [])) (take result buf.new) (count + 1) slots.new }
{
    let body = head(buf, len, b'P', name);
    copy(buf, body, password);
    let end = body + password.len();
    copy(buf, end, b"\t0\n");
    note(slots, count, name, len);
    end + 3
}
