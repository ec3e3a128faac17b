// The reader of a term: a value, `[]`, a record or a call.
#![tactic(auto)]

ghost use Rattle.std.specs.Prelude.{◌≡◌, ◌≤◌, ◌∷◌, length, drop, OnSome};
ghost use Rattle.language.specs.Tokens.{lex, sign};
ghost use Rattle.language.specs.Grammar.{any_term};
ghost use Rattle.text.specs.Meaning.{part, Within};
ghost use Rattle.tokens.specs.Readers.{ReadPlaced};
ghost use Rattle.syntax.specs.Values.{term_read_meant, TermWithin, TermFollows};

use call_readers::read_call;
use syntax::{Operand, Term, after_name, skip_record};
use text::Span;
use tokens::scanner::Scanner;
use tokens::token::Token;

// The term that starts with a keyword or a mark, which was read: a record, `[]`, or a call.
fn read_enclosed(scanner: &mut Scanner, word: Span) -> Option<Term>
    requires { Within scanner.old.text.now word }
    ensures text { scanner.new.text ≡ scanner.old.text }
    ensures meant { term_read_meant scanner.old.text.now result scanner.new.at ≡ any_term (sign (part scanner.old.text.now word) ∷ lex (drop scanner.old.at scanner.old.text.now)) }
    ensures placed { TermFollows scanner.old.text.now scanner.old.at result scanner.new.at }
{
    if scanner.is(word, b"{") {
        let start = scanner.at;
        skip_record(scanner)?;
        return Some(Term::Record(start));
    }
    if scanner.is(word, b"[]") {
        return Some(Term::Empty);
    }
    read_call(scanner, word)
}

pub fn read_term(scanner: &mut Scanner) -> Option<Term>
    ensures text { scanner.new.text ≡ scanner.old.text }
    ensures meant { term_read_meant scanner.old.text.now result scanner.new.at ≡ any_term (lex (drop scanner.old.at scanner.old.text.now)) }
    ensures placed { ReadPlaced TermWithin scanner.old.text.now scanner.old.at result scanner.new.at }
{
    match scanner.token() {
        Token::Sign(s) => read_enclosed(scanner, s),
        Token::Name(x) => Some(Term::Single(after_name(scanner, x))),
        Token::Quoted(s) => Some(Term::Single(Operand::Quoted(s))),
        Token::End | Token::Wrong => None,
    }
}
