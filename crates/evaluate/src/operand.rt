// The value of an operand: a name, a field of a named record, or a string of the program.
ghost use Rattle.std.specs.Prelude.{◌≡◌, ◌≤◌, T, length};
ghost use Rattle.std.proofs.Math.Option.{Option, some};
ghost use Rattle.language.specs.State.{Value, single, string};
ghost use Rattle.language.specs.Identifiers.{is_string};
ghost use Rattle.language.specs.Values.{Session, operand_value};
ghost use Rattle.language.proofs.Parsing.ValidPrograms.{valid_operand};
ghost use Rattle.syntax.specs.Values.{operand_meant, OperandWithin};
ghost use Rattle.values.specs.Answers.{text_at, Placed};
ghost use Rattle.scopes.specs.Scopes.{Scope, SomeScope, ReadAs, SomeRead};
ghost use Rattle.evaluated.specs.Weighed.{by_weight};
ghost use Rattle.evaluated.specs.Results.{Valued, string_in, field_in, string_value, MaybeString};

use evaluated::Evaluated;
use syntax::Operand;
use text::Span;

// The string that a name's value is.
pub fn string_of(value: &[u8]) -> Option<Span>
    requires { SomeRead value.now }
    ensures meant { (o : Option Value) → ReadAs o value.now → text_at value.now result ≡ string_in o }
    ensures placed { Placed value.now result }
{
    if value.len() == 0 {
        return None;
    }
    values::string_in(value)
}

// The string that a field of a name's value is.
pub fn field_of(value: &[u8], label: &[u8]) -> Option<Span>
    requires { SomeRead value.now }
    ensures meant { (o : Option Value) → ReadAs o value.now → text_at value.now result ≡ field_in o label.now }
    ensures placed { Placed value.now result }
{
    if value.len() == 0 {
        return None;
    }
    values::field_in(value, label)
}

// Writes a name's value.
fn put_value(value: &[u8], out: &mut [u8]) -> Evaluated
    requires { SomeRead value.now × (32768 ≤ length out.old) }
    ensures { (o : Option Value) → ReadAs o value.now → Valued result (by_weight o) out.new }
{
    if value.len() == 0 {
        return Evaluated::Missing;
    }
    let weight = values::weigh(value);
    if 8192 < weight {
        return Evaluated::Heavy;
    }
    let len = value_text::copy_in(out, 0, value);
    Evaluated::Value { len, weight }
}

// Writes a string.
fn put_text(text: &[u8], out: &mut [u8]) -> Evaluated
    requires { T (is_string text.now) × (32768 ≤ length out.old) }
    ensures { Valued result (by_weight (some (single (string text.now)))) out.new }
{
    let weight = text.len();
    if 8192 < weight {
        return Evaluated::Heavy;
    }
    let len = value_text::put_string(out, 0, text);
    Evaluated::Value { len, weight }
}

// Writes the string that was found in a name's value.
fn put_found(value: &[u8], found: Option<Span>, out: &mut [u8]) -> Evaluated
    requires { Placed value.now found × MaybeString (text_at value.now found) × (32768 ≤ length out.old) }
    ensures { Valued result (by_weight (string_value (text_at value.now found))) out.new }
{
    match found {
        Some(s) => put_text(&value[s.start..s.end], out),
        None => Evaluated::Missing,
    }
}

// Writes the value of an operand.
pub fn put_operand<'a>(
    shared: &'a [u8],
    slots: &[u32],
    count: usize,
    locals: &'a [u8],
    lslots: &[u32],
    lcount: usize,
    text: &[u8],
    v: Operand,
    out: &mut [u8],
) -> Evaluated
    requires some_scope { SomeScope shared.now slots.now count locals.now lslots.now lcount }
    requires operand_within { OperandWithin text.now v × T (valid_operand (operand_meant text.now v)) }
    requires in_bounds { 32768 ≤ length out.old }
    ensures { (s : Session) → Scope s shared.now slots.now count locals.now lslots.now lcount
        → Valued result (by_weight (operand_value s (operand_meant text.now v))) out.new }
{
    match v {
        Operand::Name(x) => {
            let a = x.start;
            let b = x.end;
            let value = contents::read(shared, slots, count, locals, lslots, lcount, &text[a..b]);
            put_value(value, out)
        }
        Operand::Field(x, y) => {
            let a = x.start;
            let b = x.end;
            let value = contents::read(shared, slots, count, locals, lslots, lcount, &text[a..b]);
            let e = y.start;
            let f = y.end;
            let found = field_of(value, &text[e..f]);
            put_found(value, found, out)
        }
        Operand::Quoted(q) => {
            let a = q.start;
            let b = q.end;
            put_text(&text[a..b], out)
        }
    }
}
