// The answer for a term: whether the sender may read what it evaluates, and then what it comes to.
#![tactic(auto)]

ghost use Rattle.std.specs.Prelude.{◌≡◌, not, ◌≤◌, length};
ghost use Rattle.std.proofs.Math.Option.{some};
ghost use Rattle.language.specs.Syntax as Syntax;
ghost use Rattle.language.specs.Programs.{longest};
ghost use Rattle.language.specs.Values.{Session};
ghost use Rattle.language.specs.Expressions.{term_value, term_names};
ghost use Rattle.syntax.specs.Values.{term_meant, SomeTerm};
ghost use Rattle.permits.specs.Permits.{Sends, SomeSender, unread};
ghost use Rattle.permits.specs.Knowledge.{KnowsFirst};
ghost use Rattle.scopes.specs.Scopes.{Scope, SomeScope};
ghost use Rattle.evaluate.specs.Drafts.{Lent};
ghost use Rattle.term_answer.specs.Telling.{Tells, answer_of};

use evaluated::{Answered, Evaluated};
use permits::{Known, readable};
use syntax::Term;

// What the evaluation answers, to a sender that may read all of it.
fn told(v: Evaluated) -> Answered
    ensures { result ≡ answer_of v }
{
    match v {
        Evaluated::Value { len, weight } => Answered::Value { len, weight },
        Evaluated::Missing => Answered::Missing,
        Evaluated::Heavy => Answered::Heavy,
    }
}

// Whether the sender may read all that the term evaluates, by what is known of it, or by its chains where nothing is.
fn may_read(
    shared: &[u8],
    slots: &[u32],
    count: usize,
    assertions: &[u64],
    n: usize,
    principals: usize,
    sender: usize,
    text: &[u8],
    e: Term,
    known: Known,
) -> bool
    requires { SomeSender shared.now slots.now count assertions.now n principals sender × SomeTerm text.now e }
    ensures { (s : Session) (x : Syntax.Term) → Sends s shared.now slots.now count assertions.now n principals sender
        → term_meant text.now e ≡ some x → KnowsFirst known s (term_names x) → unread s (term_names x) ≡ not result }
{
    match known {
        Known::All => true,
        Known::Until(k) => 0 < k,
        Known::Nothing => readable(
            shared, slots, count, assertions, n, principals, sender, text, e,
        ),
    }
}

// The answer for the term that the program's text says at the places e. `known` is what is known of it, as the first of some terms.
pub fn answer<'a>(
    shared: &'a [u8],
    slots: &[u32],
    count: usize,
    locals: &'a [u8],
    lslots: &[u32],
    lcount: usize,
    assertions: &[u64],
    n: usize,
    principals: usize,
    sender: usize,
    text: &'a [u8],
    e: Term,
    known: Known,
    out: &mut [u8],
    labels: &mut [u32],
) -> Answered
    requires some_scope { SomeScope shared.now slots.now count locals.now lslots.now lcount × SomeSender shared.now slots.now count assertions.now n principals sender }
    requires some_term { SomeTerm text.now e × (length text.now ≤ longest) }
    requires lent { Lent out.old labels.old }
    ensures { (s : Session) (x : Syntax.Term) → Scope s shared.now slots.now count locals.now lslots.now lcount
        → Sends s shared.now slots.now count assertions.now n principals sender
        → term_meant text.now e ≡ some x → KnowsFirst known s (term_names x)
        → Tells result s (term_names x) (term_value s x) out.new }
{
    if !may_read(
        shared, slots, count, assertions, n, principals, sender, text, e, known,
    ) {
        return Answered::Denied;
    }
    let v = evaluate::value(
        shared, slots, count, locals, lslots, lcount, text, e, out, labels,
    );
    told(v)
}
