// The value of a term of a program, over a session whose variables are texts.
#![tactic(auto)]

mod call; // the value of a function
mod compare; // the value of a comparison
mod draft; // a record that is written field by field
mod operand; // the value of x, of x.y or of a string
mod record; // the value of a record
mod source; // what an operand is looked for in, and the string that it is

ghost use Rattle.std.specs.Prelude.{◌≡◌, [], ◌≤◌, length};
ghost use Rattle.std.proofs.Math.Option.{some};
ghost use Rattle.language.specs.Syntax as Syntax;
ghost use Rattle.language.specs.Programs.{longest};
ghost use Rattle.language.specs.State.{list};
ghost use Rattle.language.specs.Outcomes.{gives};
ghost use Rattle.language.specs.Values.{Session};
ghost use Rattle.language.specs.Expressions.{term_value};
ghost use Rattle.syntax.specs.Values.{term_meant, SomeTerm};
ghost use Rattle.scopes.specs.Scopes.{Scope, SomeScope};
ghost use Rattle.evaluated.specs.Results.{Valued};
ghost use Rattle.evaluate.specs.Drafts.{Lent};

use evaluated::Evaluated;
use syntax::Term;

// Writes the empty list.
fn put_empty(out: &mut [u8]) -> Evaluated
    requires { 32768 ≤ length out.old }
    ensures { Valued result (gives (list [])) out.new }
{
    let len = value_text::put_list(out, 0);
    Evaluated::Value { len, weight: 0 }
}

// The value of the term that the program's text says at the places e, written from the start of `out` on; whatever the rights.
// `labels` is room for the slots of a record's labels.
pub fn value<'a>(
    shared: &'a [u8],
    slots: &[u32],
    count: usize,
    locals: &'a [u8],
    lslots: &[u32],
    lcount: usize,
    text: &'a [u8],
    e: Term,
    out: &mut [u8],
    labels: &mut [u32],
) -> Evaluated
    requires some_scope { SomeScope shared.now slots.now count locals.now lslots.now lcount }
    requires some_term { SomeTerm text.now e × (length text.now ≤ longest) }
    requires lent { Lent out.old labels.old }
    ensures { (s : Session) (x : Syntax.Term) → Scope s shared.now slots.now count locals.now lslots.now lcount
        → term_meant text.now e ≡ some x → Valued result (term_value s x) out.new }
{
    match e {
        Term::Single(v) => {
            operand::put_operand(shared, slots, count, locals, lslots, lcount, text, v, out)
        }
        Term::Empty => put_empty(out),
        Term::Record(at) => record::put_fields(
            shared, slots, count, locals, lslots, lcount, text, at, out, labels,
        ),
        Term::Lower(v) => {
            call::put_lower(shared, slots, count, locals, lslots, lcount, text, v, out)
        }
        Term::Call(f, v, w) => call::put_call(
            shared, slots, count, locals, lslots, lcount, text, f, v, w, out,
        ),
        Term::Compare(c, v, w) => compare::put_comparison(
            shared, slots, count, locals, lslots, lcount, text, c, v, w, out,
        ),
    }
}
