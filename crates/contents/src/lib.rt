// What a record holds: a principal's password and count, a variable's value, and the value of a name; a name's number, and what a principal's name weighs.
#![tactic(auto)]

ghost use Rattle.std.specs.Prelude.{◌≡◌, List, ◌≤◌, ◌<◌, length, take, get_or, MatchOption};
ghost use Rattle.std.proofs.Math.Option.{none};
ghost use Rattle.language.specs.Text.{◌or_else◌};
ghost use Rattle.language.specs.State.{Principal, Variable, value_in};
ghost use Rattle.language.specs.Weight.{name_weight};
ghost use Rattle.language.specs.Encode.{tab};
ghost use Rattle.store.specs.Held.{Principals, Variables};
ghost use Rattle.store.specs.Rows.{Row, Rows, SomeRows, row_names, row_at, position};
ghost use Rattle.contents.specs.Contents.{value_bytes, IsText, LastTab, CountAt, PasswordAt, ValueAt};

use store::index::{find, nth};
use text::Span;

// The place after the last tab from `from` up to `to`; a tab stands at `from`.
fn last_tab(text: &[u8], from: usize, to: usize) -> usize
    requires { (from < to) × (to ≤ length text.now) × (get_or text.now from 0 ≡ tab) }
    ensures { LastTab text.now from to result }
{
    for i in (from + 1..to).rev() {
        if text[i] == b'\t' {
            return i + 1;
        }
    }
    from + 1
}

// Where the count of a principal starts: it is the last field of the line, and no digit is a tab.
pub fn count_at(text: &[u8], slots: &[u32], count: usize, number: usize) -> usize
    requires { SomeRows text.now count slots.now × (number < count) }
    ensures inside { (0 < result) × (result ≤ length text.now) }
    ensures counted { (ks : List Principal) → Principals ks text.now count slots.now → CountAt ks text.now number result }
{
    let place = nth(text, slots, count, number);
    let to = place.end;
    last_tab(text, place.start + 1, to)
}

// The password of a principal whose line starts with P: after the tab that follows the name, up to the tab before the count.
pub fn password_of(text: &[u8], slots: &[u32], count: usize, number: usize) -> Option<Span>
    requires { SomeRows text.now count slots.now × (number < count) }
    ensures { (ks : List Principal) → Principals ks text.now count slots.now → PasswordAt ks text.now number result }
{
    let place = nth(text, slots, count, number);
    if text[place.start] != b'P' {
        return None;
    }
    let start = place.mid + 1;
    let digits = count_at(text, slots, count, number);
    let end = digits - 1;
    Some(Span { start, end })
}

// The text of a variable's value.
pub fn value_of(text: &[u8], slots: &[u32], count: usize, number: usize) -> Span
    requires { SomeRows text.now count slots.now × (number < count) }
    ensures { (vs : List Variable) → Variables vs text.now count slots.now → ValueAt vs text.now number result.start result.end }
{
    let place = nth(text, slots, count, number);
    Span {
        start: place.mid + 1,
        end: place.end,
    }
}

// The bytes of the value of a name, where the text has it.
fn bytes_of<'a>(text: &'a [u8], slots: &[u32], count: usize, name: &[u8]) -> Option<&'a [u8]>
    requires { SomeRows text.now count slots.now }
    ensures { (vs : List Variable) → Variables vs text.now count slots.now
        → MatchOption result (value_in vs name.now ≡ none) (λ b. IsText b.now (value_in vs name.now)) }
{
    let found = find(text, slots, count, name)?;
    Some(&text[found.start + 3 + name.len()..found.end])
}

// The bytes of the value of a name, a part of the locals or else of the shared text; nothing where neither has it.
pub fn read<'a>(
    shared: &'a [u8],
    slots: &[u32],
    count: usize,
    locals: &'a [u8],
    lslots: &[u32],
    lcount: usize,
    name: &[u8],
) -> &'a [u8]
    requires { SomeRows shared.now count slots.now × SomeRows locals.now lcount lslots.now }
    ensures { (sv lv : List Variable) → Variables sv shared.now count slots.now
        → Variables lv locals.now lcount lslots.now
        → result.now ≡ value_bytes (value_in lv name.now or_else value_in sv name.now) }
{
    let local = bytes_of(locals, lslots, lcount, name);
    if let Some(bytes) = local {
        return bytes;
    }
    bytes_of(shared, slots, count, name).unwrap_or(&[])
}

// The number of a name among the records in the first `len` bytes; of a name that is missing, how many there are.
pub fn number_of(rows: &[u8], slots: &[u32], len: usize, count: usize, name: &[u8]) -> usize
    requires { (len ≤ length rows.now) × SomeRows (take len rows.now) count slots.now }
    ensures { (l : List Row) → Rows l (take len rows.now) count slots.now → result ≡ position (row_names l) name.now }
{
    match find(&rows[..len], slots, count, name) {
        Some(found) => found.number,
        None => count,
    }
}

// The weight of a principal's name: 1 for admin and anyone.
pub fn name_weight(name: &[u8]) -> usize
    ensures { result ≡ name_weight name.now }
{
    if text::same_bytes(name, b"admin") || text::same_bytes(name, b"anyone") {
        1
    } else {
        name.len()
    }
}

// The weight of the name of a principal, by its number.
pub fn principal_weight(principals: &[u8], slots: &[u32], count: usize, number: usize) -> usize
    requires { SomeRows principals.now count slots.now × (number < count) }
    ensures { (rows : List Row) → Rows rows principals.now count slots.now → result ≡ name_weight (row_at rows number).name }
{
    let place = nth(principals, slots, count, number);
    name_weight(&principals[place.start + 2..place.mid])
}
