// The value of a function: the strings that its arguments are, and the function applied to them.
ghost use Rattle.std.specs.Prelude.{◌≤◌, T, length};
ghost use Rattle.language.specs.Syntax as Syntax;
ghost use Rattle.language.specs.Values.{Session};
ghost use Rattle.language.specs.Expressions.{term_value};
ghost use Rattle.language.proofs.Parsing.ValidPrograms.{valid_operand};
ghost use Rattle.syntax.specs.Values.{operand_meant, OperandWithin, function_meant};
ghost use Rattle.evaluated.specs.Results.{Valued};
ghost use Rattle.scopes.specs.Scopes.{Scope, SomeScope};

use crate::source::{source, string_in};
use evaluated::Evaluated;
use syntax::{Function, Operand};

// Writes the value of `tolower(v)`.
pub fn put_lower<'a>(
    shared: &'a [u8],
    slots: &[u32],
    count: usize,
    locals: &'a [u8],
    lslots: &[u32],
    lcount: usize,
    text: &'a [u8],
    v: Operand,
    out: &mut [u8],
) -> Evaluated
    requires some_scope { SomeScope shared.now slots.now count locals.now lslots.now lcount }
    requires operand_within { OperandWithin text.now v × T (valid_operand (operand_meant text.now v)) }
    requires in_bounds { 32768 ≤ length out.old }
    ensures { (s : Session) → Scope s shared.now slots.now count locals.now lslots.now lcount
        → Valued result (term_value s (Syntax.tolower (operand_meant text.now v))) out.new }
{
    let a = source(shared, slots, count, locals, lslots, lcount, text, v);
    let i = string_in(a, text, v);
    application::lower(a, i, out)
}

// Writes the value of a function of v and w.
pub fn put_call<'a>(
    shared: &'a [u8],
    slots: &[u32],
    count: usize,
    locals: &'a [u8],
    lslots: &[u32],
    lcount: usize,
    text: &'a [u8],
    f: Function,
    v: Operand,
    w: Operand,
    out: &mut [u8],
) -> Evaluated
    requires some_scope { SomeScope shared.now slots.now count locals.now lslots.now lcount }
    requires operand_within { OperandWithin text.now v × T (valid_operand (operand_meant text.now v)) }
    requires operand_within_2 { OperandWithin text.now w × T (valid_operand (operand_meant text.now w)) × (32768 ≤ length out.old) }
    ensures { (s : Session) → Scope s shared.now slots.now count locals.now lslots.now lcount
        → Valued result (term_value s (Syntax.call (function_meant f) (operand_meant text.now v) (operand_meant text.now w))) out.new }
{
    let a = source(shared, slots, count, locals, lslots, lcount, text, v);
    let i = string_in(a, text, v);
    let b = source(shared, slots, count, locals, lslots, lcount, text, w);
    let j = string_in(b, text, w);
    application::apply(f, a, i, b, j, out)
}
