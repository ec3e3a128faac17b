// What one command did, and the status that it prints.
#![tactic(auto)]

ghost use Rattle.std.specs.Prelude.{◌+◌, ◌≤◌, length};
ghost use Rattle.language.specs.Text.{Text};
ghost use Rattle.language.specs.Values.{Session};
ghost use Rattle.language.specs.Commands.{Step};
ghost use Rattle.value_text.specs.Writing.{Written};
ghost use Rattle.render.specs.Lines.{status_line};
ghost use Rattle.session.specs.Sessions.{Slices, Running};
ghost use Rattle.session.specs.Endings.{Ended};
ghost use Rattle.returning.specs.Returns.{Given};
ghost use Rattle.status.specs.Acts.{word_of, Says, Acts};

use refusal::Refusal;
use session::{Layout, Verdict};

// The status of a command that was done.
#[derive(Clone, Copy)]
pub enum Status {
    CreatePrincipal,
    ChangePassword,
    Set,
    Append,
    Local,
    Foreach,
    Filtereach,
    SetDelegation,
    DeleteDelegation,
    DefaultDelegator,
    Exiting,
}

// Refused; or done, with the session after it and the status to print; or a value that the program returns, in the first bytes of the
// buffer that is lent for it.
#[derive(Clone, Copy)]
pub enum Acted {
    Refused(Refusal),
    Done(Layout, Status),
    Value(usize),
}

// Prints a status.
pub fn print(word: Status, output: &mut [u8], at: usize) -> usize
    requires { at + 31 ≤ length output.old }
    ensures { Written output.old at (status_line (word_of word)) result output.new }
{
    match word {
        Status::CreatePrincipal => render::output::status(output, at, b"CREATE_PRINCIPAL"),
        Status::ChangePassword => render::output::status(output, at, b"CHANGE_PASSWORD"),
        Status::Set => render::output::status(output, at, b"SET"),
        Status::Append => render::output::status(output, at, b"APPEND"),
        Status::Local => render::output::status(output, at, b"LOCAL"),
        Status::Foreach => render::output::status(output, at, b"FOREACH"),
        Status::Filtereach => render::output::status(output, at, b"FILTEREACH"),
        Status::SetDelegation => render::output::status(output, at, b"SET_DELEGATION"),
        Status::DeleteDelegation => render::output::status(output, at, b"DELETE_DELEGATION"),
        Status::DefaultDelegator => render::output::status(output, at, b"DEFAULT_DELEGATOR"),
        Status::Exiting => render::output::status(output, at, b"EXITING"),
    }
}

// A command that was done has this status.
pub fn done(v: Verdict, word: Status) -> Acted
    ensures { (k : Step) (b : Slices) (s : Session) (l : Layout) (value : Text) → Ended v k b → Says k (word_of word) → Acts result k s l b value }
{
    match v {
        Verdict::Denied => Acted::Refused(Refusal::Denied),
        Verdict::Failed => Acted::Refused(Refusal::Failed),
        Verdict::Full => Acted::Refused(Refusal::Full),
        Verdict::Done(l) => Acted::Done(l, word),
    }
}

// A value that is returned leaves the session as it is.
pub fn given(v: Result<usize, Refusal>) -> Acted
    ensures { (k : Step) (b : Slices) (s : Session) (l : Layout) (value : Text) → Running s l b → Given v k s value → Acts result k s l b value }
{
    match v {
        Ok(n) => Acted::Value(n),
        Err(how) => Acted::Refused(how),
    }
}
