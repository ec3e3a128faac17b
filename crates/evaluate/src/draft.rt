// A record that is written field by field, with a slot for each label.
ghost use Rattle.std.specs.Prelude.{◌≡◌, not, List, [], ◌∷◌, ◌++◌, ◌+◌, ◌≤◌, ◌<◌, T, length};
ghost use Rattle.std.proofs.Math.Option.{some};
ghost use Rattle.language.specs.Text.{member};
ghost use Rattle.language.specs.Programs.{longest};
ghost use Rattle.language.specs.State.{Field};
ghost use Rattle.language.specs.Identifiers.{is_string};
ghost use Rattle.store.specs.Held.{slot, places};
ghost use Rattle.store.specs.Rows.{Row, Rows, SomeRows, row_names};
ghost use Rattle.value_text.specs.Writing.{Written};
ghost use Rattle.values.specs.Answers.{text_at, Placed};
ghost use Rattle.evaluated.specs.Results.{MaybeString};
ghost use Rattle.evaluate.specs.Drafts.{Drafted, SomeDraft, Lent, Extends, spelling};

use text::Span;

// How far a record is written, how many fields it has, and what they weigh. Of fields that are too heavy only the labels are written.
#[derive(Clone, Copy)]
pub struct Draft {
    pub end: usize,
    pub count: usize,
    pub weight: usize,
}

// A record without fields.
pub fn start(out: &mut [u8], slots: &[u32]) -> Draft
    requires { Lent out.old slots.now }
    ensures { Drafted [] out.new slots.now result }
{
    let end = value_text::put_record(out, 0);
    Draft {
        end,
        count: 0,
        weight: 0,
    }
}

// A row that has a label only.
fn put_label(out: &mut [u8], at: usize, label: &[u8]) -> usize
    requires { at + length label.now + 3 ≤ length out.old }
    ensures { Written out.old at (70 ∷ 9 ∷ (label.now ++ 10 ∷ [])) result out.new }
{
    let a = value_text::copy_in(out, at, b"F\t");
    let b = value_text::copy_in(out, a, label);
    value_text::put_byte(out, b, b'\n')
}

// Whether no row has that label.
fn is_new(rows: &[u8], slots: &[u32], count: usize, label: &[u8]) -> bool
    requires { SomeRows rows.now count slots.now }
    ensures { (l : List Row) → Rows l rows.now count slots.now → result ≡ not (member label.now (row_names l)) }
{
    store::index::find(rows, slots, count, label).is_none()
}

// The slot of a row that starts at a place.
fn slot_of(label: &[u8], at: usize) -> u32
    requires { at < places }
    ensures { result ≡ slot label.now at }
{
    store::index::hash(label) * 131072 + at as u32
}

// Adds a field, unless its label is there already: then there is none.
fn add(out: &mut [u8], slots: &mut [u32], d: Draft, label: &[u8], text: &[u8]) -> Option<Draft>
    requires lent { Lent out.old slots.old × SomeDraft out.old slots.old d label.now }
    requires t { T (is_string text.now) × (length text.now ≤ places) }
    ensures { (fs : List Field) → Drafted fs out.old slots.old d → spelling fs + length label.now + 3 ≤ longest
        → Extends fs label.now (some text.now) result out.new slots.new }
{
    let end = d.end;
    let count = d.count;
    if !is_new(&out[2..end], &slots[0..count], count, label) {
        return None;
    }
    slots[count] = slot_of(label, end - 2);
    let weight = d.weight + 1 + label.len() + text.len();
    if 8192 < weight {
        let next = put_label(out, end, label);
        return Some(Draft {
            end: next,
            count: count + 1,
            weight,
        });
    }
    let next = value_text::put_field(out, end, label, text);
    Some(Draft {
        end: next,
        count: count + 1,
        weight,
    })
}

// Adds a field whose text was found in a value, or was not.
pub fn add_found(
    out: &mut [u8],
    slots: &mut [u32],
    d: Draft,
    label: &[u8],
    value: &[u8],
    found: Option<Span>,
) -> Option<Draft>
    requires lent { Lent out.old slots.old × SomeDraft out.old slots.old d label.now }
    requires placed { Placed value.now found × MaybeString (text_at value.now found) × (length value.now ≤ places) }
    ensures { (fs : List Field) → Drafted fs out.old slots.old d → spelling fs + length label.now + 3 ≤ longest
        → Extends fs label.now (text_at value.now found) result out.new slots.new }
{
    match found {
        Some(s) => add(out, slots, d, label, &value[s.start..s.end]),
        None => None,
    }
}
