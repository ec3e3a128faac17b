// Readers of commands, each past its first word. Every answer holds places in the text, and no copy of it.
#![tactic(auto)]

ghost use Rattle.std.specs.Prelude.{◌≡◌, ◌∷◌, drop};
ghost use Rattle.language.specs.Text.{bytes};
ghost use Rattle.language.specs.Tokens.{lex, sign};
ghost use Rattle.language.specs.Grammar.{create_form, change_form, append_form, local_form, foreach_form, filtereach_form, delete_delegation_form, delegator_form, any_command, any_ending};
ghost use Rattle.text.specs.Meaning.{part, Within};
ghost use Rattle.tokens.specs.Readers.{ReadPlaced};
ghost use Rattle.command_readers.specs.Commands.{command_read_meant, CommandWithin, about_principals};

use expression_readers::read_expression;
use forms::{Right, Target, read_account, read_assign, read_delegation, read_each, read_value};
use syntax::Expr;
use text::Span;
use tokens::scanner::Scanner;
use tokens::token::Token;

// A command about principals and what they delegate, or the exit.
#[derive(Clone, Copy)]
pub enum Administration {
    CreatePrincipal(Span, Span),
    ChangePassword(Span, Span),
    SetDelegation(Target, Span, Right, Span),
    DeleteDelegation(Target, Span, Right, Span),
    DefaultDelegator(Span),
    Exit,
}

// A command about variables, or the return of a value.
#[derive(Clone, Copy)]
pub enum VariableCommand {
    Set(Span, Expr),
    Append(Span, Expr),
    Local(Span, Expr),
    Foreach(Span, Span, Expr),
    Filtereach(Span, Span, Expr),
    Return(Expr),
}

// A command by its places in the text. It is one of two groups, each of which has one function that does it.
#[derive(Clone, Copy)]
pub enum Command {
    Administer(Administration),
    Variable(VariableCommand),
}

// create principal p s
fn read_create(scanner: &mut Scanner) -> Option<Command>
    ensures text { scanner.new.text ≡ scanner.old.text }
    ensures meant { command_read_meant scanner.old.text.now result scanner.new.at ≡ create_form (sign (bytes "create") ∷ lex (drop scanner.old.at scanner.old.text.now)) }
    ensures placed { ReadPlaced CommandWithin scanner.old.text.now scanner.old.at result scanner.new.at }
{
    let account = read_account(scanner, b"principal")?;
    Some(Command::Administer(Administration::CreatePrincipal(account.name, account.string)))
}

// change password p s
fn read_change(scanner: &mut Scanner) -> Option<Command>
    ensures text { scanner.new.text ≡ scanner.old.text }
    ensures meant { command_read_meant scanner.old.text.now result scanner.new.at ≡ change_form (sign (bytes "change") ∷ lex (drop scanner.old.at scanner.old.text.now)) }
    ensures placed { ReadPlaced CommandWithin scanner.old.text.now scanner.old.at result scanner.new.at }
{
    let account = read_account(scanner, b"password")?;
    Some(Command::Administer(Administration::ChangePassword(account.name, account.string)))
}

// set delegation t q right -> p, past its second word
fn read_set_delegation(scanner: &mut Scanner, word: Span) -> Option<Command>
    requires { Within scanner.old.text.now word }
    ensures text { scanner.new.text ≡ scanner.old.text }
    ensures meant { command_read_meant scanner.old.text.now result scanner.new.at ≡ any_command (sign (bytes "set") ∷ sign (part scanner.old.text.now word) ∷ lex (drop scanner.old.at scanner.old.text.now)) }
    ensures placed { ReadPlaced CommandWithin scanner.old.text.now scanner.old.at result scanner.new.at }
{
    if !scanner.is(word, b"delegation") {
        return None;
    }
    let d = read_delegation(scanner)?;
    Some(Command::Administer(Administration::SetDelegation(d.target, d.from, d.right, d.to)))
}

// set x = e, or set delegation t q right -> p
fn read_set(scanner: &mut Scanner) -> Option<Command>
    ensures text { scanner.new.text ≡ scanner.old.text }
    ensures meant { command_read_meant scanner.old.text.now result scanner.new.at ≡ any_command (sign (bytes "set") ∷ lex (drop scanner.old.at scanner.old.text.now)) }
    ensures placed { ReadPlaced CommandWithin scanner.old.text.now scanner.old.at result scanner.new.at }
{
    match scanner.token() {
        Token::Sign(s) => read_set_delegation(scanner, s),
        Token::Name(x) => {
            let value = read_value(scanner, b"=")?;
            Some(Command::Variable(VariableCommand::Set(x, value)))
        }
        _ => None,
    }
}

// append to x with e
fn read_append(scanner: &mut Scanner) -> Option<Command>
    ensures text { scanner.new.text ≡ scanner.old.text }
    ensures meant { command_read_meant scanner.old.text.now result scanner.new.at ≡ append_form (sign (bytes "append") ∷ lex (drop scanner.old.at scanner.old.text.now)) }
    ensures placed { ReadPlaced CommandWithin scanner.old.text.now scanner.old.at result scanner.new.at }
{
    scanner.expect(b"to")?;
    let assign = read_assign(scanner, b"with")?;
    Some(Command::Variable(VariableCommand::Append(assign.name, assign.value)))
}

// local x = e
fn read_local(scanner: &mut Scanner) -> Option<Command>
    ensures text { scanner.new.text ≡ scanner.old.text }
    ensures meant { command_read_meant scanner.old.text.now result scanner.new.at ≡ local_form (sign (bytes "local") ∷ lex (drop scanner.old.at scanner.old.text.now)) }
    ensures placed { ReadPlaced CommandWithin scanner.old.text.now scanner.old.at result scanner.new.at }
{
    let assign = read_assign(scanner, b"=")?;
    Some(Command::Variable(VariableCommand::Local(assign.name, assign.value)))
}

// foreach y in x replacewith e
fn read_foreach(scanner: &mut Scanner) -> Option<Command>
    ensures text { scanner.new.text ≡ scanner.old.text }
    ensures meant { command_read_meant scanner.old.text.now result scanner.new.at ≡ foreach_form (sign (bytes "foreach") ∷ lex (drop scanner.old.at scanner.old.text.now)) }
    ensures placed { ReadPlaced CommandWithin scanner.old.text.now scanner.old.at result scanner.new.at }
{
    let each = read_each(scanner, b"replacewith")?;
    Some(Command::Variable(VariableCommand::Foreach(each.element, each.list, each.value)))
}

// filtereach y in x with e
fn read_filtereach(scanner: &mut Scanner) -> Option<Command>
    ensures text { scanner.new.text ≡ scanner.old.text }
    ensures meant { command_read_meant scanner.old.text.now result scanner.new.at ≡ filtereach_form (sign (bytes "filtereach") ∷ lex (drop scanner.old.at scanner.old.text.now)) }
    ensures placed { ReadPlaced CommandWithin scanner.old.text.now scanner.old.at result scanner.new.at }
{
    let each = read_each(scanner, b"with")?;
    Some(Command::Variable(VariableCommand::Filtereach(each.element, each.list, each.value)))
}

// delete delegation t q right -> p
fn read_delete(scanner: &mut Scanner) -> Option<Command>
    ensures text { scanner.new.text ≡ scanner.old.text }
    ensures meant { command_read_meant scanner.old.text.now result scanner.new.at ≡ delete_delegation_form (sign (bytes "delete") ∷ lex (drop scanner.old.at scanner.old.text.now)) }
    ensures placed { ReadPlaced CommandWithin scanner.old.text.now scanner.old.at result scanner.new.at }
{
    scanner.expect(b"delegation")?;
    let d = read_delegation(scanner)?;
    Some(Command::Administer(Administration::DeleteDelegation(d.target, d.from, d.right, d.to)))
}

// default delegator = p
fn read_default(scanner: &mut Scanner) -> Option<Command>
    ensures text { scanner.new.text ≡ scanner.old.text }
    ensures meant { command_read_meant scanner.old.text.now result scanner.new.at ≡ delegator_form (sign (bytes "default") ∷ lex (drop scanner.old.at scanner.old.text.now)) }
    ensures placed { ReadPlaced CommandWithin scanner.old.text.now scanner.old.at result scanner.new.at }
{
    scanner.expect(b"delegator")?;
    scanner.expect(b"=")?;
    let name = scanner.name()?;
    Some(Command::Administer(Administration::DefaultDelegator(name)))
}

// A command about principals, by its first word, which was read.
fn read_about_principals(scanner: &mut Scanner, word: Span) -> Option<Command>
    requires { Within scanner.old.text.now word }
    ensures text { scanner.new.text ≡ scanner.old.text }
    ensures meant { command_read_meant scanner.old.text.now result scanner.new.at ≡ about_principals (sign (part scanner.old.text.now word) ∷ lex (drop scanner.old.at scanner.old.text.now)) }
    ensures placed { ReadPlaced CommandWithin scanner.old.text.now scanner.old.at result scanner.new.at }
{
    if scanner.is(word, b"create") {
        return read_create(scanner);
    }
    if scanner.is(word, b"change") {
        return read_change(scanner);
    }
    if scanner.is(word, b"delete") {
        return read_delete(scanner);
    }
    if scanner.is(word, b"default") {
        return read_default(scanner);
    }
    None
}

// A command, by its first word.
pub fn read_command(scanner: &mut Scanner) -> Option<Command>
    ensures text { scanner.new.text ≡ scanner.old.text }
    ensures meant { command_read_meant scanner.old.text.now result scanner.new.at ≡ any_command (lex (drop scanner.old.at scanner.old.text.now)) }
    ensures placed { ReadPlaced CommandWithin scanner.old.text.now scanner.old.at result scanner.new.at }
{
    let word = scanner.sign()?;
    if scanner.is(word, b"set") {
        return read_set(scanner);
    }
    if scanner.is(word, b"append") {
        return read_append(scanner);
    }
    if scanner.is(word, b"local") {
        return read_local(scanner);
    }
    if scanner.is(word, b"foreach") {
        return read_foreach(scanner);
    }
    if scanner.is(word, b"filtereach") {
        return read_filtereach(scanner);
    }
    read_about_principals(scanner, word)
}

// What ends a program: exit, or return e.
pub fn read_ending(scanner: &mut Scanner) -> Option<Command>
    ensures text { scanner.new.text ≡ scanner.old.text }
    ensures meant { command_read_meant scanner.old.text.now result scanner.new.at ≡ any_ending (lex (drop scanner.old.at scanner.old.text.now)) }
    ensures placed { ReadPlaced CommandWithin scanner.old.text.now scanner.old.at result scanner.new.at }
{
    let word = scanner.sign()?;
    if scanner.is(word, b"exit") {
        return Some(Command::Administer(Administration::Exit));
    }
    if scanner.is(word, b"return") {
        let value = read_expression(scanner)?;
        return Some(Command::Variable(VariableCommand::Return(value)));
    }
    None
}
