// Readers of what several commands have in common: a name with a string, one or two names with an expression, and a delegation.
#![tactic(auto)]

ghost use Rattle.std.specs.Prelude.{◌≡◌, drop};
ghost use Rattle.language.specs.Text.{Text};
ghost use Rattle.language.specs.Tokens.{lex};
ghost use Rattle.language.specs.Syntax as Syntax;
ghost use Rattle.language.specs.Grammar.{any_right, any_target};
ghost use Rattle.tokens.specs.Readers.{read_meant, ReadPlaced, anywhere};
ghost use Rattle.syntax.specs.Values.{expr_read_meant, ExprWithin};
ghost use Rattle.forms.specs.Forms.{right_of, target_meant, TargetWithin, account_form, account_meant, AccountWithin, value_form, assign_form, assign_meant, AssignWithin, each_form, each_meant, EachWithin, delegation_form, delegation_meant, DelegationWithin};

use expression_readers::read_expression;
use syntax::Expr;
use text::Span;
use tokens::scanner::Scanner;
use tokens::token::Token;

// A name and a string.
#[derive(Clone, Copy)]
pub struct Account {
    pub name: Span,
    pub string: Span,
}

// A keyword, then a name and a string.
pub fn read_account(scanner: &mut Scanner, word: &[u8]) -> Option<Account>
    ensures text { scanner.new.text ≡ scanner.old.text }
    ensures meant { (k : Syntax.Name → Text → Syntax.Command) → read_meant (account_meant k) scanner.old.text.now result scanner.new.at ≡ account_form word.now k (lex (drop scanner.old.at scanner.old.text.now)) }
    ensures placed { ReadPlaced AccountWithin scanner.old.text.now scanner.old.at result scanner.new.at }
{
    scanner.expect(word)?;
    let name = scanner.name()?;
    let string = scanner.string()?;
    Some(Account { name, string })
}

// A keyword or a mark, then an expression.
pub fn read_value(scanner: &mut Scanner, word: &[u8]) -> Option<Expr>
    ensures text { scanner.new.text ≡ scanner.old.text }
    ensures meant { expr_read_meant scanner.old.text.now result scanner.new.at ≡ value_form word.now (lex (drop scanner.old.at scanner.old.text.now)) }
    ensures placed { ReadPlaced ExprWithin scanner.old.text.now scanner.old.at result scanner.new.at }
{
    scanner.expect(word)?;
    read_expression(scanner)
}

// A name and an expression.
#[derive(Clone, Copy)]
pub struct Assign {
    pub name: Span,
    pub value: Expr,
}

// A name, then a keyword or a mark, then an expression.
pub fn read_assign(scanner: &mut Scanner, word: &[u8]) -> Option<Assign>
    ensures text { scanner.new.text ≡ scanner.old.text }
    ensures meant { (k : Syntax.Name → Syntax.Expr → Syntax.Command) → assign_meant scanner.old.text.now k result scanner.new.at ≡ assign_form word.now k (lex (drop scanner.old.at scanner.old.text.now)) }
    ensures placed { ReadPlaced AssignWithin scanner.old.text.now scanner.old.at result scanner.new.at }
{
    let name = scanner.name()?;
    let value = read_value(scanner, word)?;
    Some(Assign { name, value })
}

// The name of the element, that of the list, and an expression.
#[derive(Clone, Copy)]
pub struct Each {
    pub element: Span,
    pub list: Span,
    pub value: Expr,
}

// `y in x`, then a keyword, then an expression.
pub fn read_each(scanner: &mut Scanner, word: &[u8]) -> Option<Each>
    ensures text { scanner.new.text ≡ scanner.old.text }
    ensures meant { (k : Syntax.Name → Syntax.Name → Syntax.Expr → Syntax.Command) → each_meant scanner.old.text.now k result scanner.new.at ≡ each_form word.now k (lex (drop scanner.old.at scanner.old.text.now)) }
    ensures placed { ReadPlaced EachWithin scanner.old.text.now scanner.old.at result scanner.new.at }
{
    let element = scanner.name()?;
    scanner.expect(b"in")?;
    let list = scanner.name()?;
    let value = read_value(scanner, word)?;
    Some(Each {
        element,
        list,
        value,
    })
}

#[derive(Clone, Copy)]
pub enum Right {
    Read,
    Write,
    Append,
    Delegate,
}

fn read_right(scanner: &mut Scanner) -> Option<Right>
    ensures text { scanner.new.text ≡ scanner.old.text }
    ensures meant { read_meant right_of scanner.old.text.now result scanner.new.at ≡ any_right (lex (drop scanner.old.at scanner.old.text.now)) }
    ensures placed { ReadPlaced anywhere scanner.old.text.now scanner.old.at result scanner.new.at }
{
    let sign = scanner.sign()?;
    if scanner.is(sign, b"read") {
        return Some(Right::Read);
    }
    if scanner.is(sign, b"write") {
        return Some(Right::Write);
    }
    if scanner.is(sign, b"append") {
        return Some(Right::Append);
    }
    if scanner.is(sign, b"delegate") {
        return Some(Right::Delegate);
    }
    None
}

// What a delegation is about: every variable, or one.
#[derive(Clone, Copy)]
pub enum Target {
    All,
    Only(Span),
}

fn read_target(scanner: &mut Scanner) -> Option<Target>
    ensures text { scanner.new.text ≡ scanner.old.text }
    ensures meant { read_meant target_meant scanner.old.text.now result scanner.new.at ≡ any_target (lex (drop scanner.old.at scanner.old.text.now)) }
    ensures placed { ReadPlaced TargetWithin scanner.old.text.now scanner.old.at result scanner.new.at }
{
    match scanner.token() {
        Token::Sign(s) => {
            if scanner.is(s, b"all") {
                return Some(Target::All);
            }
            None
        }
        Token::Name(x) => Some(Target::Only(x)),
        _ => None,
    }
}

// A target, who delegates, the right, and to whom.
#[derive(Clone, Copy)]
pub struct Delegation {
    pub target: Target,
    pub from: Span,
    pub right: Right,
    pub to: Span,
}

pub fn read_delegation(scanner: &mut Scanner) -> Option<Delegation>
    ensures text { scanner.new.text ≡ scanner.old.text }
    ensures meant { (k : Syntax.Target → Syntax.Name → Syntax.Right → Syntax.Name → Syntax.Command) → read_meant (delegation_meant k) scanner.old.text.now result scanner.new.at ≡ delegation_form k (lex (drop scanner.old.at scanner.old.text.now)) }
    ensures placed { ReadPlaced DelegationWithin scanner.old.text.now scanner.old.at result scanner.new.at }
{
    let target = read_target(scanner)?;
    let from = scanner.name()?;
    let right = read_right(scanner)?;
    scanner.expect(b"->")?;
    let to = scanner.name()?;
    Some(Delegation {
        target,
        from,
        right,
        to,
    })
}
