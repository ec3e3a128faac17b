// The reader of an expression: a term, or a `let`. Lets may nest as deep as a program is long, so that no function here calls itself.
#![tactic(auto)]

ghost use Rattle.std.specs.Prelude.{◌≡◌, drop};
ghost use Rattle.language.specs.Tokens.{lex};
ghost use Rattle.language.specs.Grammar.{any_expression};
ghost use Rattle.text.specs.Meaning.{part, Within};
ghost use Rattle.tokens.specs.Readers.{read_meant, ReadPlaced, nothing_kept, anywhere};
ghost use Rattle.syntax.specs.Values.{expr_read_meant, ExprWithin};
ghost use Rattle.expression_readers.specs.Heads.{let_head, past_expression};

use syntax::Expr;
use term_readers::read_term;
use text::Span;
use tokens::scanner::Scanner;

// let x =, up to where the first expression starts. The name that is bound.
pub fn read_let(scanner: &mut Scanner) -> Option<Span>
    ensures text { scanner.new.text ≡ scanner.old.text }
    ensures meant { read_meant part scanner.old.text.now result scanner.new.at ≡ let_head (lex (drop scanner.old.at scanner.old.text.now)) }
    ensures placed { ReadPlaced Within scanner.old.text.now scanner.old.at result scanner.new.at }
{
    scanner.expect(b"let")?;
    let name = scanner.name()?;
    scanner.expect(b"=")?;
    Some(name)
}

// An expression is passed over. `pending` counts the lets whose `in` is not read yet: after as many more of these words, each with an
// expression behind it, the expression ends. A term is tried first, so that what is long is read once.
fn skip_lets(scanner: &mut Scanner) -> Option<()>
    ensures text { scanner.new.text ≡ scanner.old.text }
    ensures meant { read_meant nothing_kept scanner.old.text.now result scanner.new.at ≡ past_expression (lex (drop scanner.old.at scanner.old.text.now)) }
    ensures placed { ReadPlaced anywhere scanner.old.text.now scanner.old.at result scanner.new.at }
{
    let mut pending: usize = 0;
    'lets: loop {
        let start = *scanner;
        match read_term(scanner) {
            Some(_) => {
                if pending == 0 {
                    return Some(());
                }
                let Some(()) = scanner.expect(b"in") else {
                    return None;
                };
                pending -= 1;
            }
            None => {
                *scanner = start;
                read_let(scanner)?;
                pending += 1;
            }
        }
    }
}

pub fn read_expression(scanner: &mut Scanner) -> Option<Expr>
    ensures text { scanner.new.text ≡ scanner.old.text }
    ensures meant { expr_read_meant scanner.old.text.now result scanner.new.at ≡ any_expression (lex (drop scanner.old.at scanner.old.text.now)) }
    ensures placed { ReadPlaced ExprWithin scanner.old.text.now scanner.old.at result scanner.new.at }
{
    let start = *scanner;
    if let Some(term) = read_term(scanner) {
        return Some(Expr::Term(term));
    }
    *scanner = start;
    skip_lets(scanner)?;
    Some(Expr::Let(start.at))
}
