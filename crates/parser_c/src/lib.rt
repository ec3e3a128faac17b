// What a program's text says, for programs in other languages: whether it parses, how many commands it has, and of which kind each is.
#![tactic(auto)]

ghost use Rattle.std.specs.Prelude.{◌≡◌, List, ◌≤◌, length};
ghost use Rattle.std.proofs.Math.Option.{some};
ghost use Rattle.language.specs.Syntax as Syntax;
ghost use Rattle.parser.specs.Bodies.{body_from};
ghost use Rattle.parser_c.specs.Kinds.{administration_code, variable_code, code, SomeCommands, Listed, Reported};

use command_readers::{Administration, Command, VariableCommand};

const NO: u64 = 65536;

const REFUSED: u64 = 65537;

fn administration_kind(c: Administration) -> u8
    ensures { result ≡ administration_code c }
{
    match c {
        Administration::CreatePrincipal(_, _) => 1,
        Administration::ChangePassword(_, _) => 2,
        Administration::SetDelegation(_, _, _, _) => 7,
        Administration::DeleteDelegation(_, _, _, _) => 8,
        Administration::DefaultDelegator(_) => 9,
        Administration::Exit => 11,
    }
}

fn variable_kind(c: VariableCommand) -> u8
    ensures { result ≡ variable_code c }
{
    match c {
        VariableCommand::Set(_, _) => 3,
        VariableCommand::Append(_, _) => 4,
        VariableCommand::Local(_, _) => 5,
        VariableCommand::Foreach(_, _, _) => 6,
        VariableCommand::Filtereach(_, _, _) => 12,
        VariableCommand::Return(_) => 10,
    }
}

fn kind(c: Command) -> u8
    ensures { result ≡ code c }
{
    match c {
        Command::Administer(a) => administration_kind(a),
        Command::Variable(v) => variable_kind(v),
    }
}

// The kinds of the commands from the line at `at` on. How many there are.
fn list(text: &[u8], at: usize, kinds: &mut [u8]) -> usize
    requires { SomeCommands text.now at × (length text.now ≤ 16384) × (16384 ≤ length kinds.old) }
    ensures { (cs : List Syntax.Command) → body_from text.now at ≡ some cs → Listed cs kinds.old kinds.new result }
{
    let mut p = at;
    let mut n: usize = 0;
    while let Some(read) = parser::read_at(text, p) {
        kinds[n] = kind(read.command);
        n += 1;
        let Some(next) = read.rest else {
            return n;
        };
        p = next;
    }
    n
}

// How many commands a program has, their kinds in the first bytes of `kinds`; or the number for a text that does not parse, or for too
// little room.
#[unsafe(no_mangle)]
pub extern "C" fn parser_kinds(text: &[u8], kinds: &mut [u8]) -> u64
    ensures { Reported text.now kinds.old kinds.new result }
{
    if kinds.len() < 16384 {
        return REFUSED;
    }
    match parser::login(text) {
        Some(head) => {
            if !parser::body_at(text, head.at) {
                return NO;
            }
            list(text, head.at, kinds) as u64
        }
        None => NO,
    }
}
