// What a whole line holds: the login, a command, or an ending, and nothing but the line's end after it.
#![tactic(auto)]

ghost use Rattle.std.specs.Prelude.{◌≡◌, ◌≤◌, length, drop};
ghost use Rattle.language.specs.Tokens.{lex};
ghost use Rattle.language.specs.Programs.{login_line, command_line, ending_line};
ghost use Rattle.program_lines.specs.Lines.{line_from};
ghost use Rattle.language.specs.Grammar.{any_login};
ghost use Rattle.tokens.specs.Readers.{read_meant, ReadPlaced};
ghost use Rattle.line_readers.specs.WholeLines.{is_nil, line_read_meant, LineWithin, opening_of, OpeningWithin, login_meant, LoginWithin};

use command_readers::{Command, read_command, read_ending};
use text::Span;
use tokens::scanner::Scanner;
use tokens::token::Token;

// Whether the line ends here, perhaps after a comment.
fn ends(scanner: &mut Scanner) -> bool
    ensures text { scanner.new.text ≡ scanner.old.text }
    ensures ended { result ≡ is_nil (lex (drop scanner.old.at scanner.old.text.now)) }
{
    matches!(&scanner.token(), Token::End)
}

// A line that is a command.
pub fn command_line(text: &[u8], at: usize) -> Option<Command>
    requires { at ≤ length text.now }
    ensures meant { line_read_meant text.now result ≡ command_line (line_from text.now at) }
    ensures placed { LineWithin text.now result }
{
    let mut scanner = Scanner { text, at };
    let command = read_command(&mut scanner)?;
    if ends(&mut scanner) {
        Some(command)
    } else {
        None
    }
}

// A line that ends a program.
pub fn ending_line(text: &[u8], at: usize) -> Option<Command>
    requires { at ≤ length text.now }
    ensures meant { line_read_meant text.now result ≡ ending_line (line_from text.now at) }
    ensures placed { LineWithin text.now result }
{
    let mut scanner = Scanner { text, at };
    let ending = read_ending(&mut scanner)?;
    if ends(&mut scanner) {
        Some(ending)
    } else {
        None
    }
}

// The line that names the sender and gives the password.
#[derive(Clone, Copy)]
pub struct Login {
    pub sender: Span,
    pub password: Span,
}

// as principal p password s do
fn read_login(scanner: &mut Scanner) -> Option<Login>
    ensures text { scanner.new.text ≡ scanner.old.text }
    ensures meant { read_meant opening_of scanner.old.text.now result scanner.new.at ≡ any_login (lex (drop scanner.old.at scanner.old.text.now)) }
    ensures placed { ReadPlaced OpeningWithin scanner.old.text.now scanner.old.at result scanner.new.at }
{
    scanner.expect(b"as")?;
    scanner.expect(b"principal")?;
    let sender = scanner.name()?;
    scanner.expect(b"password")?;
    let password = scanner.string()?;
    scanner.expect(b"do")?;
    Some(Login { sender, password })
}

// The first line of a program.
pub fn login_line(text: &[u8], at: usize) -> Option<Login>
    requires { at ≤ length text.now }
    ensures meant { login_meant text.now result ≡ login_line (line_from text.now at) }
    ensures placed { LoginWithin text.now result }
{
    let mut scanner = Scanner { text, at };
    let login = read_login(&mut scanner)?;
    if ends(&mut scanner) {
        Some(login)
    } else {
        None
    }
}
