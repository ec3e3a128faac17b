// The records of the state text: elements, values and variables, each read from a place on, or shown not to stand there.
#![tactic(auto)]

ghost use Rattle.std.specs.Prelude.{◌≡◌, not, ◌≤◌, drop, get_or};
ghost use Rattle.record_fields.specs.Sections.{Safe};
ghost use Rattle.records.specs.Values.{off_element, ElementMeant, ElementsMeant, ValueMeant, VariableMeant};

use record_fields::{Entry, LIMIT, fields, string_at};

// A string or a record, as an element of a list or a whole value: where it ends, and what is weighed with it.
fn element_at(text: &[u8], at: usize, w: usize, slots: &mut [u32]) -> Option<(usize, usize)>
    requires { Safe text.now at w slots.old }
    ensures { ElementMeant text.now at w result }
{
    match lines::byte_at(text, at) {
        b'S' => {
            if lines::byte_at(text, at + 1) != b'\t' {
                return None;
            }
            string_at(text, at + 2, w)
        }
        b'R' => {
            if lines::byte_at(text, at + 1) != b'\n' {
                return None;
            }
            let found = fields(text, at + 2, w, slots)?;
            if found.count == 0 {
                return None;
            }
            Some((found.end, found.weighed))
        }
        _ => None,
    }
}

// Whether a list goes on here; a field that no record has before it is none of its elements.
fn goes_on(text: &[u8], at: usize) -> bool
    ensures { result ≡ not (off_element (drop at text.now)) }
{
    matches!(lines::byte_at(text, at), b'S' | b'R' | b'F')
}

// The elements of a list.
fn elements(text: &[u8], at: usize, w: usize, slots: &mut [u32]) -> Option<(usize, usize)>
    requires { Safe text.now at w slots.old × (w ≤ 8192) }
    ensures { ElementsMeant text.now at w result }
{
    let mut i = at;
    let mut now = w;
    while goes_on(text, i) {
        (i, now) = element_at(text, i, now + 1, slots)?;
    }
    Some((i, now))
}

// The value of a variable.
fn value_at(text: &[u8], at: usize, w: usize, slots: &mut [u32]) -> Option<(usize, usize)>
    requires { Safe text.now at w slots.old × (w ≤ 8192) }
    ensures { ValueMeant text.now at w result }
{
    if lines::byte_at(text, at) != b'L' {
        return element_at(text, at, w, slots);
    }
    if lines::byte_at(text, at + 1) != b'\n' {
        return None;
    }
    elements(text, at + 2, w, slots)
}

// A variable: its name, and its value.
pub fn variable_at(text: &[u8], at: usize, w: usize, slots: &mut [u32]) -> Option<Entry>
    requires { Safe text.now at w slots.old × (get_or text.now at 0 ≡ 86) }
    ensures { VariableMeant text.now at w result }
{
    if lines::byte_at(text, at + 1) != b'\t' {
        return None;
    }
    let name_end = lines::name_end(text, at + 2, b'\t')?;
    let before = w + 1 + (name_end - (at + 2));
    if before > LIMIT {
        return None;
    }
    let (end, weighed) = value_at(text, name_end + 1, before, slots)?;
    Some(Entry {
        name_end,
        end,
        weighed,
    })
}
