// The value of a comparison: what its arguments are, and the answer by that.
ghost use Rattle.std.proofs.Math.Option.{Option};
ghost use Rattle.std.specs.Prelude.{◌≤◌, length};
ghost use Rattle.language.specs.Syntax as Syntax;
ghost use Rattle.language.specs.State.{Value};
ghost use Rattle.language.specs.Values.{Session, operand_value};
ghost use Rattle.language.specs.Expressions.{term_value};
ghost use Rattle.syntax.specs.Values.{operand_meant, OperandWithin, comparison_meant};
ghost use Rattle.evaluated.specs.Results.{Valued};
ghost use Rattle.equality.specs.Elements.{ElementIn, element_of};
ghost use Rattle.scopes.specs.Scopes.{Scope, SomeScope, ReadAs, SomeRead, SourceOf, SomeSource};

use crate::source::source;
use equality::Compared;
use evaluated::Evaluated;
use syntax::{Comparison, Operand};

// What a name's value is to a comparison.
fn element_of(value: &[u8]) -> Compared
    requires { SomeRead value.now }
    ensures { (o : Option Value) → ReadAs o value.now → ElementIn (element_of o) value.now result }
{
    if value.len() == 0 {
        return Compared::No;
    }
    equality::element_in(value)
}

// What an operand is to a comparison, in what it is looked for in.
fn element_at(source: &[u8], text: &[u8], v: Operand) -> Compared
    requires { SomeSource text.now v source.now × OperandWithin text.now v }
    ensures { (s : Session) → SourceOf s text.now v source.now
        → ElementIn (element_of (operand_value s (operand_meant text.now v))) source.now result }
{
    match v {
        Operand::Name(_) => element_of(source),
        Operand::Field(_, y) => {
            let a = y.start;
            let b = y.end;
            let found = crate::operand::field_of(source, &text[a..b]);
            equality::text_found(found)
        }
        Operand::Quoted(q) => Compared::Text(q),
    }
}

// Writes the value of `equal(v, w)` or `notequal(v, w)`.
pub fn put_comparison<'a>(
    shared: &'a [u8],
    slots: &[u32],
    count: usize,
    locals: &'a [u8],
    lslots: &[u32],
    lcount: usize,
    text: &'a [u8],
    c: Comparison,
    v: Operand,
    w: Operand,
    out: &mut [u8],
) -> Evaluated
    requires some_scope { SomeScope shared.now slots.now count locals.now lslots.now lcount }
    requires operand_within { OperandWithin text.now v × OperandWithin text.now w × (32768 ≤ length out.old) }
    ensures { (s : Session) → Scope s shared.now slots.now count locals.now lslots.now lcount
        → Valued result (term_value s (Syntax.compare (comparison_meant c) (operand_meant text.now v) (operand_meant text.now w))) out.new }
{
    let a = source(shared, slots, count, locals, lslots, lcount, text, v);
    let i = element_at(a, text, v);
    let b = source(shared, slots, count, locals, lslots, lcount, text, w);
    let j = element_at(b, text, w);
    equality::compare(c, a, i, b, j, out)
}
