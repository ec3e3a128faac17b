// The functions of expressions, applied to strings that were found in values or in the program. An argument that is no string is found out
// before one that is too heavy.
#![tactic(auto)]

ghost use Rattle.std.specs.Prelude.{◌≡◌, ◌≤◌, T, nat_abs, length};
ghost use Rattle.std.proofs.Math.Option.{some};
ghost use Rattle.language.specs.Syntax as Syntax;
ghost use Rattle.language.specs.Identifiers.{is_string};
ghost use Rattle.language.specs.Prices.{greatest, reckoned};
ghost use Rattle.amounts.specs.Amounts.{amount_meant};
ghost use Rattle.syntax.specs.Values.{operation_meant, function_meant};
ghost use Rattle.values.specs.Answers.{text_at, Placed};
ghost use Rattle.evaluated.specs.Results.{Valued, MaybeString};
ghost use Rattle.application.specs.Applied.{lowered_to, applied_to};

use evaluated::Evaluated;
use syntax::{Function, Operation};
use text::Span;

fn lower_text(text: &[u8], out: &mut [u8]) -> Evaluated
    requires { T (is_string text.now) × (32768 ≤ length out.old) }
    ensures { Valued result (lowered_to (some text.now)) out.new }
{
    let weight = text.len();
    if 8192 < weight {
        return Evaluated::Heavy;
    }
    let len = functions::put_lower(out, text);
    Evaluated::Value { len, weight }
}

// `tolower` of the string that was found in a value.
pub fn lower(value: &[u8], found: Option<Span>, out: &mut [u8]) -> Evaluated
    requires { Placed value.now found × MaybeString (text_at value.now found) × (32768 ≤ length out.old) }
    ensures { Valued result (lowered_to (text_at value.now found)) out.new }
{
    match found {
        Some(s) => lower_text(&value[s.start..s.end], out),
        None => Evaluated::Missing,
    }
}

// A record's labels weigh with it: the two fields 8 more than the string.
fn split(first: &[u8], second: &[u8], out: &mut [u8]) -> Evaluated
    requires { T (is_string first.now) × (32768 ≤ length out.old) }
    ensures { Valued result (applied_to Syntax.split (some first.now) (some second.now)) out.new }
{
    let at = second.len();
    if 8192 < at {
        return Evaluated::Heavy;
    }
    let m = first.len();
    if 8184 < m {
        return Evaluated::Heavy;
    }
    let len = functions::put_cut(out, first, at);
    Evaluated::Value { len, weight: m + 8 }
}

fn concat(first: &[u8], second: &[u8], out: &mut [u8]) -> Evaluated
    requires { T (is_string first.now) × T (is_string second.now) × (32768 ≤ length out.old) }
    ensures { Valued result (applied_to Syntax.concat (some first.now) (some second.now)) out.new }
{
    let n = second.len();
    if 8192 < n {
        return Evaluated::Heavy;
    }
    let m = first.len();
    if 8192 - n < m {
        return Evaluated::Heavy;
    }
    let len = functions::put_joined(out, first, second);
    Evaluated::Value { len, weight: m + n }
}

// What an operation makes of two amounts.
fn reckon(o: Operation, a: i64, b: i64) -> Option<i64>
    requires { (nat_abs a ≤ greatest) × (nat_abs b ≤ greatest) }
    ensures { amount_meant result ≡ reckoned (operation_meant o) a b }
{
    match o {
        Operation::Add => amounts::add(a, b),
        Operation::Sub => amounts::sub(a, b),
        Operation::Times => amounts::times(a, b),
        Operation::Per => amounts::per(a, b),
    }
}

// A price is short: no price is too heavy.
fn priced(o: Operation, first: &[u8], second: &[u8], out: &mut [u8]) -> Evaluated
    requires { 32768 ≤ length out.old }
    ensures { Valued result (applied_to (Syntax.arithmetic (operation_meant o)) (some first.now) (some second.now)) out.new }
{
    let one = prices::price_in(first);
    let Some(a) = one else {
        return Evaluated::Missing;
    };
    let other = prices::price_in(second);
    let Some(b) = other else {
        return Evaluated::Missing;
    };
    let result = reckon(o, a, b);
    let Some(c) = result else {
        return Evaluated::Missing;
    };
    let len = functions::put_amount(out, c);
    Evaluated::Value {
        len,
        weight: len - 3,
    }
}

fn call(f: Function, first: &[u8], second: &[u8], out: &mut [u8]) -> Evaluated
    requires { T (is_string first.now) × T (is_string second.now) × (32768 ≤ length out.old) }
    ensures { Valued result (applied_to (function_meant f) (some first.now) (some second.now)) out.new }
{
    match f {
        Function::Split => split(first, second, out),
        Function::Concat => concat(first, second, out),
        Function::Arithmetic(o) => priced(o, first, second, out),
    }
}

// A function of the two strings that were found, each in a value of its own.
pub fn apply(
    f: Function,
    first: &[u8],
    a: Option<Span>,
    second: &[u8],
    b: Option<Span>,
    out: &mut [u8],
) -> Evaluated
    requires placed { Placed first.now a × MaybeString (text_at first.now a) }
    requires placed_2 { Placed second.now b × MaybeString (text_at second.now b) × (32768 ≤ length out.old) }
    ensures { Valued result (applied_to (function_meant f) (text_at first.now a) (text_at second.now b)) out.new }
{
    let (Some(s), Some(t)) = (a, b) else {
        return Evaluated::Missing;
    };
    call(f, &first[s.start..s.end], &second[t.start..t.end], out)
}
