// A value kept as text: its kind, its weight, what it holds and where.
#![tactic(auto)]

ghost use Rattle.std.specs.Prelude.{◌≡◌, List, ◌+◌, ◌≤◌, ◌<◌, length};
ghost use Rattle.language.specs.Text.{Text, joined};
ghost use Rattle.language.specs.State.{Field, Element, Value, list};
ghost use Rattle.language.specs.Values.{as_string};
ghost use Rattle.language.specs.Weight.{value_weight};
ghost use Rattle.language.specs.Encode.{field_text, element_text};
ghost use Rattle.values.specs.Encoding.{Holds, ValueText, ListText};
ghost use Rattle.values.specs.Breaks.{breaks};
ghost use Rattle.values.specs.Places.{FieldAt, FieldsAt, ElementAt, Elements, SomeField, SomeFields, SomeElement, SomeElements};
ghost use Rattle.values.specs.Answers.{kind_of, text_at, Placed, field_of, Nexts, EndsOf};

use text::{Span, same_bytes, until};

#[derive(Clone, Copy)]
pub enum Kind {
    Text,
    Record,
    List,
}

// Where the label and the text of a field end.
#[derive(Clone, Copy)]
pub struct Ends {
    pub label: usize,
    pub text: usize,
}

pub fn kind_of(text: &[u8]) -> Kind
    requires { ValueText text.now }
    ensures { (v : Value) → Holds v text.now → result ≡ kind_of v }
{
    match text[0] {
        b'S' => Kind::Text,
        b'R' => Kind::Record,
        _ => Kind::List,
    }
}

// Where the bytes of a string stand, if the value is one.
pub fn string_in(text: &[u8]) -> Option<Span>
    requires { ValueText text.now }
    ensures meant { (v : Value) → Holds v text.now → text_at text.now result ≡ as_string v }
    ensures placed { Placed text.now result }
{
    if text[0] != b'S' {
        return None;
    }
    Some(Span {
        start: 2,
        end: text.len() - 1,
    })
}

// How many bytes of the text end a part of a line.
fn breaks(text: &[u8]) -> usize
    ensures { result ≡ breaks text.now }
{
    let mut n = 0;
    for b in text {
        n += usize::from(matches!(*b, b'\t' | b'\n'));
    }
    n
}

// What the value weighs: its length without tabs and newlines, less the letter of its first line.
pub fn weigh(text: &[u8]) -> usize
    requires { ValueText text.now }
    ensures { (v : Value) → Holds v text.now → result ≡ value_weight v }
{
    text.len() - 1 - breaks(text)
}

// Where the label and the text of the field end whose line starts at `at`.
pub fn field_ends(text: &[u8], at: usize) -> Ends
    requires { SomeField text.now at }
    ensures ends { (f : Field) (rest : Text) → FieldAt text.now at f rest → EndsOf text.now at f rest result }
    ensures placed { (at + 2 ≤ result.label) × (result.label < result.text) × (result.text < length text.now) }
{
    let label = until(text, at + 2, b'\t');
    let end = until(text, label + 1, b'\n');
    Ends { label, text: end }
}

// The text of the record's first field of that label.
pub fn field_in(text: &[u8], label: &[u8]) -> Option<Span>
    requires { ValueText text.now }
    ensures meant { (v : Value) → Holds v text.now → text_at text.now result ≡ field_of v label.now }
    ensures placed { Placed text.now result }
{
    if text[0] != b'R' {
        return None;
    }
    let mut at = 2;
    while at < text.len() {
        let ends = field_ends(text, at);
        if same_bytes(&text[at + 2..ends.label], label) {
            return Some(Span {
                start: ends.label + 1,
                end: ends.text,
            });
        }
        at = ends.text + 1;
    }
    None
}

// The end of the fields' lines that start at `at`.
fn fields_end(text: &[u8], at: usize) -> usize
    requires { SomeFields text.now at }
    ensures ends { (fs : List Field) (rest : Text) → FieldsAt text.now at fs rest → result ≡ at + length (joined field_text fs) }
    ensures within { result ≤ length text.now }
{
    let mut i = at;
    while i < text.len() && text[i] == b'F' {
        i = until(text, i, b'\n') + 1;
    }
    i
}

// The end of the element whose first line starts at `at`.
fn element_end(text: &[u8], at: usize) -> usize
    requires { SomeElement text.now at }
    ensures ends { (e : Element) (rest : Text) → ElementAt text.now at e rest → result ≡ at + length (element_text e) }
    ensures within { result ≤ length text.now }
{
    let line = until(text, at, b'\n');
    fields_end(text, line + 1)
}

// Where the elements of a list start.
pub fn first_element(text: &[u8]) -> usize
    requires { ListText text.now }
    ensures { (es : List Element) → Holds (list es) text.now → Elements text.now result es }
{
    2
}

// The element of a list that starts at `at`, or the end of the list. The next one starts where it ends.
pub fn next_element(text: &[u8], at: usize) -> Option<Span>
    requires { SomeElements text.now at }
    ensures { (es : List Element) → Elements text.now at es → Nexts text.now at es result }
{
    if at == text.len() {
        return None;
    }
    Some(Span {
        start: at,
        end: element_end(text, at),
    })
}
