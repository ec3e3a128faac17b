// Look-ups among the principals or the variables of a text. Each answers with a number; a text that it found it writes in the lent room.
#![tactic(auto)]

ghost use Rattle.std.specs.Prelude.{◌≡◌, List, ◌+◌, ◌*◌, ◌≤◌, ◌<◌, T, length};
ghost use Rattle.language.specs.Text.{all};
ghost use Rattle.language.specs.State.{Principal, Variable};
ghost use Rattle.language.specs.Valid.{valid_principal};
ghost use Rattle.store.specs.Held.{Principals, SomePrincipals, Variables};
ghost use Rattle.store.specs.Rows.{Row, Rows, SomeRows, row_names};
ghost use Rattle.counts.specs.Counted.{SomeCounted};
ghost use Rattle.state_lookups.specs.Looks.{Says, found, name_of, principal_of, count_said, variable_of, SomeVariables};

use contents::{password_of, value_of};
use counts::count_of;
use splice::copy;
use store::index::{find, nth};

const MISSING: u64 = 4294967298;

// A record's number and its text.
fn write(number: usize, text: &[u8], out: &mut [u8]) -> u64
    requires { (number < 4096) × (length text.now ≤ 65536) × (length text.now ≤ length out.old) }
    ensures { Says (found number text.now) out.old out.new result }
{
    copy(out, 0, text);
    number as u64 * 65536 + text.len() as u64
}

// A record that keeps no text.
fn unkept(number: usize) -> u64
    requires { number < 4096 }
    ensures { result ≡ number * 65536 + 65535 }
{
    number as u64 * 65536 + 65535
}

// A principal by name, with its password.
pub fn principal(text: &[u8], slots: &[u32], count: usize, name: &[u8], out: &mut [u8]) -> u64
    requires { SomePrincipals text.now count slots.now × (count ≤ 4096) × (length text.now ≤ 65536) × (65536 ≤ length out.old) }
    ensures { (ks : List Principal) → Principals ks text.now count slots.now → Says (principal_of ks name.now) out.old out.new result }
{
    let Some(found) = find(text, slots, count, name) else {
        return MISSING;
    };
    let number = found.number;
    let password = password_of(text, slots, count, number);
    match password {
        Some(kept) => write(number, &text[kept.start..kept.end], out),
        None => unkept(number),
    }
}

// The count of a principal, by name.
pub fn count(text: &[u8], slots: &[u32], count: usize, name: &[u8]) -> u64
    requires { SomeCounted text.now count slots.now }
    ensures { (ks : List Principal) → Principals ks text.now count slots.now → T (all valid_principal ks) → result ≡ count_said ks name.now }
{
    let Some(found) = find(text, slots, count, name) else {
        return MISSING;
    };
    let digits = count_of(text, slots, count, found.number);
    digits.value
}

// A variable by name, with its value's text.
pub fn variable(text: &[u8], slots: &[u32], count: usize, name: &[u8], out: &mut [u8]) -> u64
    requires { SomeVariables text.now count slots.now × (count ≤ 4096) × (length text.now ≤ 65536) × (65536 ≤ length out.old) }
    ensures { (vs : List Variable) → Variables vs text.now count slots.now → Says (variable_of vs name.now) out.old out.new result }
{
    let Some(found) = find(text, slots, count, name) else {
        return MISSING;
    };
    let number = found.number;
    let span = value_of(text, slots, count, number);
    let start = span.start;
    let end = span.end;
    write(number, &text[start..end], out)
}

// The name of the record of a number.
pub fn nth_name(text: &[u8], slots: &[u32], count: usize, number: usize, out: &mut [u8]) -> u64
    requires { SomeRows text.now count slots.now × (count ≤ 4096) × (length text.now ≤ 65536) × (65536 ≤ length out.old) }
    ensures { (rows : List Row) → Rows rows text.now count slots.now → Says (name_of (row_names rows) number) out.old out.new result }
{
    if count <= number {
        return MISSING;
    }
    let place = nth(text, slots, count, number);
    let start = place.start;
    let from = start + 2;
    let to = place.mid;
    write(number, &text[from..to], out)
}
