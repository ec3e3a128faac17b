// What `equal` and `notequal` answer of two values that were found (document 02, M-106). An argument that is missing or a list is found out
// before one that is too heavy.
#![tactic(auto)]

ghost use Rattle.std.specs.Prelude.{◌≡◌, List, ◌≤◌, length};
ghost use Rattle.std.proofs.Math.Option.{Option, some};
ghost use Rattle.language.specs.State.{Field, Element, string, fields, Value};
ghost use Rattle.language.specs.Weight.{element_weight};
ghost use Rattle.language.specs.Outcomes.{gives};
ghost use Rattle.language.specs.Values.{as_element};
ghost use Rattle.language.specs.Functions as Functions;
ghost use Rattle.syntax.specs.Values.{comparison_meant};
ghost use Rattle.values.specs.Encoding.{Holds, ValueText};
ghost use Rattle.comparison.specs.Records.{HoldsRecord, RecordText};
ghost use Rattle.evaluated.specs.Results.{Valued};
ghost use Rattle.equality.specs.Elements.{ElementIn, SomeElement, found_as, is_element, compared_to};

use comparison::same_record;
use evaluated::Evaluated;
use syntax::Comparison;
use text::{Span, same_bytes};
use values::Kind;

// What an operand is to a comparison: a string, which stands at a place of its source; a record, whose text the source is; or neither,
// since it has no value or is a list.
#[derive(Clone, Copy)]
pub enum Compared {
    Text(Span),
    Record,
    No,
}

// The string that was found, or none.
pub fn text_found(found: Option<Span>) -> Compared
    ensures { result ≡ found_as found }
{
    match found {
        Some(s) => Compared::Text(s),
        None => Compared::No,
    }
}

// What a value is to a comparison.
pub fn element_in(value: &[u8]) -> Compared
    requires { ValueText value.now }
    ensures { (v : Value) → Holds v value.now → ElementIn (as_element v) value.now result }
{
    match values::kind_of(value) {
        Kind::Text => text_found(values::string_in(value)),
        Kind::Record => Compared::Record,
        Kind::List => Compared::No,
    }
}

fn is_element(k: Compared) -> bool
    ensures { result ≡ is_element k }
{
    !matches!(k, Compared::No)
}

fn weight_of(source: &[u8], k: Compared) -> usize
    requires { SomeElement source.now k }
    ensures { (e : Element) → ElementIn (some e) source.now k → result ≡ element_weight e }
{
    match k {
        Compared::Text(s) => s.end - s.start,
        Compared::Record => values::weigh(source),
        Compared::No => 0,
    }
}

// Whether a string and an element are the same.
fn same_text(text: &[u8], second: &[u8], b: Compared) -> bool
    requires { SomeElement second.now b }
    ensures { (d : Element) → ElementIn (some d) second.now b → result ≡ Functions.same_element (string text.now) d }
{
    match b {
        Compared::Text(s) => same_bytes(text, &second[s.start..s.end]),
        Compared::Record | Compared::No => false,
    }
}

// Whether a record and an element are the same.
fn same_fields(first: &[u8], second: &[u8], b: Compared) -> bool
    requires { RecordText first.now × SomeElement second.now b }
    ensures { (fs : List Field) (d : Element) → HoldsRecord fs first.now → ElementIn (some d) second.now b
        → result ≡ Functions.same_element (fields fs) d }
{
    match b {
        Compared::Text(_) => false,
        Compared::Record => same_record(first, second),
        Compared::No => false,
    }
}

fn same_element(first: &[u8], a: Compared, second: &[u8], b: Compared) -> bool
    requires { SomeElement first.now a × SomeElement second.now b }
    ensures { (e d : Element) → ElementIn (some e) first.now a → ElementIn (some d) second.now b → result ≡ Functions.same_element e d }
{
    match a {
        Compared::Text(s) => same_text(&first[s.start..s.end], second, b),
        Compared::Record => same_fields(first, second, b),
        Compared::No => false,
    }
}

// Whether what is asked of two elements is so.
fn holds(c: Comparison, same: bool) -> bool
    ensures { (e d : Element) → same ≡ Functions.same_element e d → result ≡ Functions.holds (comparison_meant c) e d }
{
    match c {
        Comparison::Equal => same,
        Comparison::NotEqual => !same,
    }
}

// Writes the empty string where it is so, else "0".
fn put_answer(so: bool, out: &mut [u8]) -> Evaluated
    requires { 32768 ≤ length out.old }
    ensures { Valued result (gives (Functions.answer so)) out.new }
{
    if so {
        let len = value_text::put_string(out, 0, b"");
        return Evaluated::Value { len, weight: 0 };
    }
    let len = value_text::put_string(out, 0, b"0");
    Evaluated::Value { len, weight: 1 }
}

// A comparison of two operands, each with the source that it was looked for in.
pub fn compare(
    c: Comparison,
    first: &[u8],
    a: Compared,
    second: &[u8],
    b: Compared,
    out: &mut [u8],
) -> Evaluated
    requires { SomeElement first.now a × SomeElement second.now b × (32768 ≤ length out.old) }
    ensures { (o p : Option Element) → ElementIn o first.now a → ElementIn p second.now b
        → Valued result (compared_to (comparison_meant c) o p) out.new }
{
    if !is_element(a) {
        return Evaluated::Missing;
    }
    if !is_element(b) {
        return Evaluated::Missing;
    }
    if 8192 < weight_of(first, a) {
        return Evaluated::Heavy;
    }
    if 8192 < weight_of(second, b) {
        return Evaluated::Heavy;
    }
    let same = same_element(first, a, second, b);
    let so = holds(c, same);
    put_answer(so, out)
}
