// Which terms of an expression the sender may read, tried or not. What evaluates an expression for each element of a list finds that out once,
// and asks for no element.
#![tactic(auto)]

ghost use Rattle.std.specs.Prelude.{◌≡◌, [], ◌∷◌};
ghost use Rattle.std.proofs.Math.Option.{some};
ghost use Rattle.language.specs.Syntax as Syntax;
ghost use Rattle.language.specs.Values.{Session};
ghost use Rattle.syntax.specs.declared.Expr.TheVariants as ExprOf;
ghost use Rattle.syntax.specs.Values.{term_meant, expr_meant, SomeTerm, SomeExpr};
ghost use Rattle.permits.specs.Permits.{Sends, SomeSender};
ghost use Rattle.permits.specs.Knowledge.{terms};
ghost use Rattle.expression_rights.specs.Finding.{Finds};

use expression_readers::read_let;
use permits::{Known, readable};
use syntax::{Expr, Term};
use term_readers::read_term;
use tokens::scanner::Scanner;

// The expression that stands from `at` on, term by term. Lets nest as deep as a program is long, so that nothing here calls itself: `pending`
// counts the lets whose `in` is not read yet, `done` the terms that may be read. The text says an expression there, so that no word of it is
// missing.
fn lets_known(
    shared: &[u8],
    slots: &[u32],
    count: usize,
    assertions: &[u64],
    n: usize,
    principals: usize,
    sender: usize,
    text: &[u8],
    at: usize,
) -> Known
    requires { SomeSender shared.now slots.now count assertions.now n principals sender × SomeExpr text.now (ExprOf.Let at) }
    ensures { (s : Session) (x : Syntax.Expr) → Sends s shared.now slots.now count assertions.now n principals sender
        → expr_meant text.now (ExprOf.Let at) ≡ some x → Finds result s (terms x) }
{
    let mut scanner = Scanner { text, at };
    let mut pending: usize = 0;
    let mut done: usize = 0;
    'terms: loop {
        let start = scanner;
        match read_term(&mut scanner) {
            Some(e) => {
                if !readable(
                    shared, slots, count, assertions, n, principals, sender, text, e,
                ) {
                    return Known::Until(done);
                }
                if pending == 0 {
                    return Known::All;
                }
                let Some(()) = scanner.expect(b"in") else {
                    return Known::Nothing;
                };
                pending -= 1;
                done += 1;
            }
            None => {
                scanner = start;
                let Some(_) = read_let(&mut scanner) else {
                    return Known::Nothing;
                };
                pending += 1;
            }
        }
    }
}

// One term by itself.
fn term_known(
    shared: &[u8],
    slots: &[u32],
    count: usize,
    assertions: &[u64],
    n: usize,
    principals: usize,
    sender: usize,
    text: &[u8],
    e: Term,
) -> Known
    requires { SomeSender shared.now slots.now count assertions.now n principals sender × SomeTerm text.now e }
    ensures { (s : Session) (x : Syntax.Term) → Sends s shared.now slots.now count assertions.now n principals sender
        → term_meant text.now e ≡ some x → Finds result s (x ∷ []) }
{
    if readable(
        shared, slots, count, assertions, n, principals, sender, text, e,
    ) {
        Known::All
    } else {
        Known::Until(0)
    }
}

// What the sender may read of the terms that stand in an expression.
pub fn known(
    shared: &[u8],
    slots: &[u32],
    count: usize,
    assertions: &[u64],
    n: usize,
    principals: usize,
    sender: usize,
    text: &[u8],
    e: Expr,
) -> Known
    requires { SomeSender shared.now slots.now count assertions.now n principals sender × SomeExpr text.now e }
    ensures { (s : Session) (x : Syntax.Expr) → Sends s shared.now slots.now count assertions.now n principals sender
        → expr_meant text.now e ≡ some x → Finds result s (terms x) }
{
    match e {
        Expr::Term(t) => term_known(
            shared, slots, count, assertions, n, principals, sender, text, t,
        ),
        Expr::Let(at) => lets_known(
            shared, slots, count, assertions, n, principals, sender, text, at,
        ),
    }
}
