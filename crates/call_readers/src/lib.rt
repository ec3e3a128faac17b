// Readers of calls: a function or a comparison, and as many values as it takes.
#![tactic(auto)]

ghost use Rattle.std.specs.Prelude.{◌≡◌, ◌∷◌, drop};
ghost use Rattle.language.specs.Text.{bytes};
ghost use Rattle.language.specs.Tokens.{lex, sign};
ghost use Rattle.language.specs.Grammar.{operation_of, function_of, comparison_of, any_call};
ghost use Rattle.text.specs.Meaning.{part, Within};
ghost use Rattle.tokens.specs.Readers.{found_meant, read_meant, ReadPlaced};
ghost use Rattle.syntax.specs.Values.{operation_meant, function_meant, comparison_meant, term_read_meant, TermWithin};
ghost use Rattle.call_readers.specs.Functions.{Made, two_values, comparing, pair_meant, PairWithin};

use syntax::{Comparison, Function, Operand, Operation, Term, read_operand};
use text::Span;
use tokens::scanner::Scanner;

// The value that `tolower` takes, in parentheses.
fn read_lowered(scanner: &mut Scanner) -> Option<Term>
    ensures text { scanner.new.text ≡ scanner.old.text }
    ensures meant { term_read_meant scanner.old.text.now result scanner.new.at ≡ any_call (sign (bytes "tolower") ∷ lex (drop scanner.old.at scanner.old.text.now)) }
    ensures placed { ReadPlaced TermWithin scanner.old.text.now scanner.old.at result scanner.new.at }
{
    scanner.expect(b"(")?;
    let value = read_operand(scanner)?;
    scanner.expect(b")")?;
    Some(Term::Lower(value))
}

// The two values that a function or a comparison takes, in parentheses.
fn read_pair(scanner: &mut Scanner) -> Option<(Operand, Operand)>
    ensures text { scanner.new.text ≡ scanner.old.text }
    ensures meant { (made : Made) → read_meant (pair_meant made) scanner.old.text.now result scanner.new.at ≡ two_values made (lex (drop scanner.old.at scanner.old.text.now)) }
    ensures placed { ReadPlaced PairWithin scanner.old.text.now scanner.old.at result scanner.new.at }
{
    scanner.expect(b"(")?;
    let first = read_operand(scanner)?;
    scanner.expect(b",")?;
    let second = read_operand(scanner)?;
    scanner.expect(b")")?;
    Some((first, second))
}

// The operation on two prices that a keyword names.
fn operation_of(scanner: &Scanner, word: Span) -> Option<Operation>
    requires { Within scanner.now.text.now word }
    ensures { found_meant operation_meant result ≡ operation_of (part scanner.now.text.now word) }
{
    if scanner.is(word, b"add") {
        return Some(Operation::Add);
    }
    if scanner.is(word, b"sub") {
        return Some(Operation::Sub);
    }
    if scanner.is(word, b"times") {
        return Some(Operation::Times);
    }
    if scanner.is(word, b"per") {
        return Some(Operation::Per);
    }
    None
}

// The function of two values that a keyword names.
fn function_of(scanner: &Scanner, word: Span) -> Option<Function>
    requires { Within scanner.now.text.now word }
    ensures { found_meant function_meant result ≡ function_of (part scanner.now.text.now word) }
{
    if scanner.is(word, b"split") {
        return Some(Function::Split);
    }
    if scanner.is(word, b"concat") {
        return Some(Function::Concat);
    }
    let operation = operation_of(scanner, word)?;
    Some(Function::Arithmetic(operation))
}

// The comparison that a keyword names.
fn comparison_of(scanner: &Scanner, word: Span) -> Option<Comparison>
    requires { Within scanner.now.text.now word }
    ensures { found_meant comparison_meant result ≡ comparison_of (part scanner.now.text.now word) }
{
    if scanner.is(word, b"equal") {
        return Some(Comparison::Equal);
    }
    if scanner.is(word, b"notequal") {
        return Some(Comparison::NotEqual);
    }
    None
}

// The comparison that starts with a keyword, which was read.
fn read_comparison(scanner: &mut Scanner, word: Span) -> Option<Term>
    requires { Within scanner.old.text.now word }
    ensures text { scanner.new.text ≡ scanner.old.text }
    ensures meant { term_read_meant scanner.old.text.now result scanner.new.at ≡ comparing (sign (part scanner.old.text.now word) ∷ lex (drop scanner.old.at scanner.old.text.now)) }
    ensures placed { ReadPlaced TermWithin scanner.old.text.now scanner.old.at result scanner.new.at }
{
    let comparison = comparison_of(scanner, word)?;
    let (first, second) = read_pair(scanner)?;
    Some(Term::Compare(comparison, first, second))
}

// The call that starts with a keyword, which was read: a function or a comparison, and as many values as it takes.
pub fn read_call(scanner: &mut Scanner, word: Span) -> Option<Term>
    requires { Within scanner.old.text.now word }
    ensures text { scanner.new.text ≡ scanner.old.text }
    ensures meant { term_read_meant scanner.old.text.now result scanner.new.at ≡ any_call (sign (part scanner.old.text.now word) ∷ lex (drop scanner.old.at scanner.old.text.now)) }
    ensures placed { ReadPlaced TermWithin scanner.old.text.now scanner.old.at result scanner.new.at }
{
    if scanner.is(word, b"tolower") {
        return read_lowered(scanner);
    }
    let Some(function) = function_of(scanner, word) else {
        return read_comparison(scanner, word);
    };
    let (first, second) = read_pair(scanner)?;
    Some(Term::Call(function, first, second))
}
