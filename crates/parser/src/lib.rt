// Whole programs: the login of a text, its commands in turn, and whether they are those of a program to its end.
#![tactic(auto)]

ghost use Rattle.std.specs.Prelude.{◌≡◌, ◌≤◌, length};
ghost use Rattle.language.specs.Text.{present};
ghost use Rattle.language.specs.Programs.{parse};
ghost use Rattle.program_lines.specs.Lines.{written_from};
ghost use Rattle.parser.specs.Bodies.{is_empty, body_from, head_meant, HeadWithin, ReadFrom};

use command_readers::Command;
use line_readers::{command_line, ending_line, login_line};
use program_lines::{Step, next_line};
use text::Span;

// The login of a text: who sends it, the password, and where its commands start.
#[derive(Clone, Copy)]
pub struct Head {
    pub sender: Span,
    pub password: Span,
    pub at: usize,
}

// The login that a text starts with, if it is not too long.
pub fn login(text: &[u8]) -> Option<Head>
    ensures meant { parse text.now ≡ head_meant text.now result }
    ensures placed { HeadWithin text.now result }
{
    if text.len() > 16384 {
        return None;
    }
    match next_line(text, 0) {
        Step::Tokens(s, at) => {
            let login = login_line(text, s)?;
            Some(Head {
                sender: login.sender,
                password: login.password,
                at,
            })
        }
        Step::Stars | Step::Broken => None,
    }
}

// A command, and where further lines follow it; where none do, it ends the program.
#[derive(Clone, Copy)]
pub struct Read {
    pub command: Command,
    pub rest: Option<usize>,
}

// Whether nothing but `***` follows from `at` on.
fn stars_at(text: &[u8], at: usize) -> bool
    requires { at ≤ length text.now }
    ensures { result ≡ is_empty (written_from text.now at) }
{
    matches!(&next_line(text, at), Step::Stars)
}

// The first command of the lines from `at` on; none where they are not the rest of a program.
pub fn read_at(text: &[u8], at: usize) -> Option<Read>
    requires { at ≤ length text.now }
    ensures { ReadFrom text.now at result }
{
    match next_line(text, at) {
        Step::Tokens(s, n) => {
            if let Some(command) = command_line(text, s) {
                return Some(Read {
                    command,
                    rest: Some(n),
                });
            }
            let command = ending_line(text, s)?;
            if !stars_at(text, n) {
                return None;
            }
            Some(Read {
                command,
                rest: None,
            })
        }
        Step::Stars | Step::Broken => None,
    }
}

// Whether the lines from `at` on are commands, an ending and `***`.
pub fn body_at(text: &[u8], at: usize) -> bool
    requires { at ≤ length text.now }
    ensures { result ≡ present (body_from text.now at) }
{
    let mut p = at;
    while let Some(read) = read_at(text, p) {
        let Some(next) = read.rest else {
            return true;
        };
        p = next;
    }
    false
}
