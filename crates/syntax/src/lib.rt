// What the readers of expressions answer, and those of values and of the fields of a record. Every answer holds places in the text, and no
// copy of it.
#![tactic(auto)]

ghost use Rattle.std.specs.Prelude.{◌≡◌, ◌≤◌, length, drop};
ghost use Rattle.std.proofs.Math.Option.{some};
ghost use Rattle.language.specs.Tokens.{lex};
ghost use Rattle.language.specs.Grammar.{any_operand, field_or_variable};
ghost use Rattle.text.specs.Meaning.{part, Within};
ghost use Rattle.tokens.specs.Readers.{read_meant, ReadPlaced, nothing_kept, anywhere};
ghost use Rattle.syntax.specs.Values.{dot_label, record_at, skipped, operand_meant, OperandWithin, field_meant, FieldWithin};

use text::Span;
use tokens::scanner::Scanner;
use tokens::token::Token;

// A value: x, x.y or a string.
#[derive(Clone, Copy)]
pub enum Operand {
    Name(Span),
    Field(Span, Span),
    Quoted(Span),
}

// A dot and the label of a field.
fn read_label(scanner: &mut Scanner) -> Option<Span>
    ensures text { scanner.new.text ≡ scanner.old.text }
    ensures meant { read_meant part scanner.old.text.now result scanner.new.at ≡ dot_label (lex (drop scanner.old.at scanner.old.text.now)) }
    ensures placed { ReadPlaced Within scanner.old.text.now scanner.old.at result scanner.new.at }
{
    scanner.expect(b".")?;
    scanner.name()
}

// The value that starts with a name, which was read: a field of the variable, or the variable.
pub fn after_name(scanner: &mut Scanner, name: Span) -> Operand
    requires { Within scanner.old.text.now name }
    ensures text { scanner.new.text ≡ scanner.old.text }
    ensures meant { some (operand_meant scanner.old.text.now result, lex (drop scanner.new.at scanner.old.text.now)) ≡ field_or_variable (part scanner.old.text.now name) (lex (drop scanner.old.at scanner.old.text.now)) }
    ensures placed { OperandWithin scanner.old.text.now result × (scanner.old.at ≤ scanner.new.at) × (scanner.new.at ≤ length scanner.old.text.now) }
{
    let mut next = *scanner;
    let Some(field) = read_label(&mut next) else {
        return Operand::Name(name);
    };
    *scanner = next;
    Operand::Field(name, field)
}

pub fn read_operand(scanner: &mut Scanner) -> Option<Operand>
    ensures text { scanner.new.text ≡ scanner.old.text }
    ensures meant { read_meant operand_meant scanner.old.text.now result scanner.new.at ≡ any_operand (lex (drop scanner.old.at scanner.old.text.now)) }
    ensures placed { ReadPlaced OperandWithin scanner.old.text.now scanner.old.at result scanner.new.at }
{
    match scanner.token() {
        Token::Name(x) => Some(after_name(scanner, x)),
        Token::Quoted(s) => Some(Operand::Quoted(s)),
        _ => None,
    }
}

// A field of a record: its label, its value, and whether another field follows.
#[derive(Clone, Copy)]
pub struct Field {
    pub label: Span,
    pub value: Operand,
    pub more: bool,
}

// The first of the fields of a record that follow, past its comma or the record's brace.
#[tactic(auto, using(crate::proofs::Fuel::record_step, crate::proofs::Fields::comma_field))]
pub fn read_field(scanner: &mut Scanner) -> Option<Field>
    ensures text { scanner.new.text ≡ scanner.old.text }
    ensures meant { field_meant scanner.old.text.now result scanner.new.at ≡ record_at scanner.old.text.now scanner.old.at }
    ensures placed { ReadPlaced FieldWithin scanner.old.text.now scanner.old.at result scanner.new.at }
{
    let label = scanner.name()?;
    scanner.expect(b"=")?;
    let value = read_operand(scanner)?;
    let sign = scanner.sign()?;
    if scanner.is(sign, b",") {
        return Some(Field {
            label,
            value,
            more: true,
        });
    }
    if scanner.is(sign, b"}") {
        return Some(Field {
            label,
            value,
            more: false,
        });
    }
    None
}

// The fields of a record and its brace are passed over.
#[tactic(auto, using(crate::proofs::Fields::skip_before))]
pub fn skip_record(scanner: &mut Scanner) -> Option<()>
    ensures text { scanner.new.text ≡ scanner.old.text }
    ensures meant { read_meant nothing_kept scanner.old.text.now result scanner.new.at ≡ skipped (record_at scanner.old.text.now scanner.old.at) }
    ensures placed { ReadPlaced anywhere scanner.old.text.now scanner.old.at result scanner.new.at }
{
    while read_field(scanner)?.more {}
    Some(())
}

// An operation on two prices.
#[derive(Clone, Copy)]
pub enum Operation {
    Add,
    Sub,
    Times,
    Per,
}

// A function of two strings.
#[derive(Clone, Copy)]
pub enum Function {
    Split,
    Concat,
    Arithmetic(Operation),
}

// Whether two values are the same.
#[derive(Clone, Copy)]
pub enum Comparison {
    Equal,
    NotEqual,
}

// A term: a value, `[]`, a record, whose fields stand past the place of its brace, or a function or a comparison with its values. These
// are one or two, and stand in the answer: nothing is read again where they are evaluated.
#[derive(Clone, Copy)]
pub enum Term {
    Single(Operand),
    Empty,
    Record(usize),
    Lower(Operand),
    Call(Function, Operand, Operand),
    Compare(Comparison, Operand, Operand),
}

// An expression: a term, or a `let`, which stands from a place on and is read again where it is evaluated: it may be as long as the text.
#[derive(Clone, Copy)]
pub enum Expr {
    Term(Term),
    Let(usize),
}
