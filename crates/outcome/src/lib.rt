// How a program's commands end. Document 01, "A run".
#![tactic(auto)]

ghost use Rattle.std.specs.Prelude.{◌≡◌};
ghost use Rattle.language.specs.Text.{present};
ghost use Rattle.parser.specs.Bodies.{rest_from};
ghost use Rattle.outcome.specs.Ends.{RestWithin, unless_broken};

use refusal::Refusal;
use session::Layout;

// The text turned out to be no program; or the program is refused, or completed with the session that it leaves, the bytes that it prints and
// the number of their lines.
#[derive(Clone, Copy)]
pub enum Performed {
    Broken,
    Refused(Refusal),
    Completed(Layout, usize, usize),
}

// A command before `rest` was refused. So is its program, where the rest of the text is that of a program.
pub fn refused(text: &[u8], rest: Option<usize>, how: Refusal) -> Performed
    requires { RestWithin text.now rest }
    ensures { result ≡ unless_broken (present (rest_from text.now rest)) how }
{
    let Some(n) = rest else {
        return Performed::Refused(how);
    };
    if parser::body_at(text, n) {
        return Performed::Refused(how);
    }
    Performed::Broken
}
