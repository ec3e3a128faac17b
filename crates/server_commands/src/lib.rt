// What admin alone does to the server as a whole, on a running session: exit, and the default delegator.
#![tactic(auto)]

ghost use Rattle.std.specs.Prelude.{T};
ghost use Rattle.language.specs.Syntax.{default_delegator, exit};
ghost use Rattle.language.specs.Values.{Session};
ghost use Rattle.language.specs.Commands.{step};
ghost use Rattle.language.proofs.Parsing.ValidPrograms.{valid_command};
ghost use Rattle.text.specs.Meaning.{part, Within};
ghost use Rattle.session.specs.Sessions.{slices, Running, SomeRunning};
ghost use Rattle.session.specs.Endings.{Ended};

use contents::number_of;
use session::{Layout, Verdict};
use text::Span;

// Exit, which admin alone may send, closes the server.
pub fn exit(
    principals: &[u8],
    principal_slots: &[u32],
    vars: &[u8],
    variable_slots: &[u32],
    locals: &[u8],
    local_slots: &[u32],
    assertions: &[u64],
    l: Layout,
) -> Verdict
    ensures { (s : Session) → Running s l (slices principals.now principal_slots.now vars.now variable_slots.now locals.now local_slots.now assertions.now)
        → Ended result (step s exit) (slices principals.now principal_slots.now vars.now variable_slots.now locals.now local_slots.now assertions.now) }
{
    let sender = l.sender;
    if sender != 0 {
        return Verdict::Denied;
    }
    let mut k = l;
    k.is_open = false;
    Verdict::Done(k)
}

// New principals get their rights from the default delegator, whom admin alone may name.
pub fn default_delegator(
    principals: &[u8],
    principal_slots: &[u32],
    vars: &[u8],
    variable_slots: &[u32],
    locals: &[u8],
    local_slots: &[u32],
    assertions: &[u64],
    l: Layout,
    text: &[u8],
    p: Span,
) -> Verdict
    requires some_running { SomeRunning l (slices principals.now principal_slots.now vars.now variable_slots.now locals.now local_slots.now assertions.now) }
    requires within { Within text.now p × T (valid_command (default_delegator (part text.now p))) }
    ensures { (s : Session) → Running s l (slices principals.now principal_slots.now vars.now variable_slots.now locals.now local_slots.now assertions.now)
        → Ended result (step s (default_delegator (part text.now p))) (slices principals.now principal_slots.now vars.now variable_slots.now locals.now local_slots.now assertions.now) }
{
    let sender = l.sender;
    if sender != 0 {
        return Verdict::Denied;
    }
    let a = p.start;
    let b = p.end;
    let len = l.principals_len;
    let count = l.principals;
    let n = number_of(principals, principal_slots, len, count, &text[a..b]);
    if n == count {
        return Verdict::Failed;
    }
    let mut k = l;
    k.delegator = n;
    Verdict::Done(k)
}
