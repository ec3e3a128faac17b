// Whether the sender of a program may do something with a name, and may read all that a term evaluates.
#![tactic(auto)]

ghost use Rattle.std.specs.Prelude.{◌≡◌, not, List, ◌++◌};
ghost use Rattle.std.proofs.Math.Option.{some};
ghost use Rattle.language.specs.Tokens.{Token};
ghost use Rattle.language.specs.Syntax.{Right, Binding};
ghost use Rattle.language.specs.Syntax as Syntax;
ghost use Rattle.language.specs.Values.{Session};
ghost use Rattle.language.specs.Expressions.{operand_names, binding_names, term_names};
ghost use Rattle.syntax.specs.Values.{operand_meant, OperandWithin, record_at, term_meant, SomeTerm, SomeRecord};
ghost use Rattle.named_rights.specs.Numbers.{code};
ghost use Rattle.permits.specs.Permits.{Sends, SomeSender, allowed_on, unread};
ghost use Rattle.permits.specs.Knowledge.{past};

use assertion::READ;
use syntax::{Operand, Term, read_field};
use tokens::scanner::Scanner;

// What is known of the terms of an expression, in the order in which they stand: that the sender may read all of them; that it may read so
// many, and the next one not; or nothing.
#[derive(Clone, Copy)]
pub enum Known {
    All,
    Until(usize),
    Nothing,
}

// What is known of the terms behind the first one, which may be read.
pub fn behind(known: Known) -> Known
    ensures { result ≡ past known }
{
    match known {
        Known::All => Known::All,
        Known::Until(k) => Known::Until(k.saturating_sub(1)),
        Known::Nothing => Known::Nothing,
    }
}

// Whether the sender may do to `name` what the right allows. A name that is no shared variable asks for no right.
pub fn allowed(
    shared: &[u8],
    slots: &[u32],
    count: usize,
    assertions: &[u64],
    n: usize,
    principals: usize,
    sender: usize,
    name: &[u8],
    right: u16,
) -> bool
    requires { SomeSender shared.now slots.now count assertions.now n principals sender }
    ensures { (s : Session) (r : Right) → Sends s shared.now slots.now count assertions.now n principals sender
        → right ≡ code r → result ≡ allowed_on s r name.now }
{
    match store::index::find(shared, slots, count, name) {
        Some(found) => named_rights::may(assertions, n, principals, found.number, right, sender),
        None => true,
    }
}

// Whether the sender may read the name that an operand evaluates.
fn operand_readable(
    shared: &[u8],
    slots: &[u32],
    count: usize,
    assertions: &[u64],
    n: usize,
    principals: usize,
    sender: usize,
    text: &[u8],
    v: Operand,
) -> bool
    requires { SomeSender shared.now slots.now count assertions.now n principals sender × OperandWithin text.now v }
    ensures { (s : Session) → Sends s shared.now slots.now count assertions.now n principals sender
        → unread s (operand_names (operand_meant text.now v)) ≡ not result }
{
    match v {
        Operand::Name(x) | Operand::Field(x, _) => allowed(
            shared,
            slots,
            count,
            assertions,
            n,
            principals,
            sender,
            &text[x.start..x.end],
            READ,
        ),
        Operand::Quoted(_) => true,
    }
}

// Whether the sender may read all names that the fields evaluate which stand from `at` on.
fn fields_readable(
    shared: &[u8],
    slots: &[u32],
    count: usize,
    assertions: &[u64],
    n: usize,
    principals: usize,
    sender: usize,
    text: &[u8],
    at: usize,
) -> bool
    requires { SomeSender shared.now slots.now count assertions.now n principals sender × SomeRecord text.now at }
    ensures { (s : Session) (bs : List Binding) (us : List Token) → Sends s shared.now slots.now count assertions.now n principals sender
        → record_at text.now at ≡ some (bs, us) → unread s (binding_names bs) ≡ not result }
{
    let mut scanner = Scanner { text, at };
    while let Some(field) = read_field(&mut scanner) {
        if !operand_readable(
            shared,
            slots,
            count,
            assertions,
            n,
            principals,
            sender,
            text,
            field.value,
        ) {
            return false;
        }
        if !field.more {
            return true;
        }
    }
    true
}

// Whether the sender may read the names that both values of a call or of a comparison evaluate.
fn both_readable(
    shared: &[u8],
    slots: &[u32],
    count: usize,
    assertions: &[u64],
    n: usize,
    principals: usize,
    sender: usize,
    text: &[u8],
    first: Operand,
    second: Operand,
) -> bool
    requires { SomeSender shared.now slots.now count assertions.now n principals sender × OperandWithin text.now first × OperandWithin text.now second }
    ensures { (s : Session) → Sends s shared.now slots.now count assertions.now n principals sender
        → unread s (operand_names (operand_meant text.now first) ++ operand_names (operand_meant text.now second)) ≡ not result }
{
    operand_readable(
        shared, slots, count, assertions, n, principals, sender, text, first,
    ) && operand_readable(
        shared, slots, count, assertions, n, principals, sender, text, second,
    )
}

// Whether the sender may read all names that a term evaluates. What `tolower` evaluates is its value.
pub fn readable(
    shared: &[u8],
    slots: &[u32],
    count: usize,
    assertions: &[u64],
    n: usize,
    principals: usize,
    sender: usize,
    text: &[u8],
    e: Term,
) -> bool
    requires { SomeSender shared.now slots.now count assertions.now n principals sender × SomeTerm text.now e }
    ensures { (s : Session) (x : Syntax.Term) → Sends s shared.now slots.now count assertions.now n principals sender
        → term_meant text.now e ≡ some x → unread s (term_names x) ≡ not result }
{
    match e {
        Term::Single(v) | Term::Lower(v) => operand_readable(
            shared, slots, count, assertions, n, principals, sender, text, v,
        ),
        Term::Empty => true,
        Term::Record(at) => fields_readable(
            shared, slots, count, assertions, n, principals, sender, text, at,
        ),
        Term::Call(_, v, w) | Term::Compare(_, v, w) => both_readable(
            shared, slots, count, assertions, n, principals, sender, text, v, w,
        ),
    }
}
