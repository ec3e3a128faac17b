// Create principal on a running session.
#![tactic(auto)]

ghost use Rattle.std.specs.Prelude.{◌≡◌, ◌≤◌, T, length};
ghost use Rattle.language.specs.Syntax.{create_principal};
ghost use Rattle.language.specs.Programs.{longest};
ghost use Rattle.language.specs.Values.{Session};
ghost use Rattle.language.specs.Commands.{step};
ghost use Rattle.language.proofs.Parsing.ValidPrograms.{valid_command};
ghost use Rattle.text.specs.Meaning.{part, Within};
ghost use Rattle.session.specs.Sessions.{slices, Running, SomeRunning};
ghost use Rattle.session.specs.Endings.{Ended};

use assertion_changes::Entered;
use contents::number_of;
use session::{Layout, Verdict};
use text::Span;

// A new principal, whom admin alone may create. The default delegator delegates to it what it may.
pub fn create_principal(
    principals: &mut [u8],
    principal_slots: &mut [u32],
    vars: &[u8],
    variable_slots: &[u32],
    locals: &[u8],
    local_slots: &[u32],
    assertions: &mut [u64],
    targets: &mut [u32],
    l: Layout,
    text: &[u8],
    p: Span,
    password: Span,
) -> Verdict
    requires some_running { SomeRunning l (slices principals.old principal_slots.old vars.now variable_slots.now locals.now local_slots.now assertions.old) }
    requires within { Within text.now p × Within text.now password × T (valid_command (create_principal (part text.now p) (part text.now password))) × (length text.now ≤ longest) }
    requires targets_len { length targets.old ≡ 4096 }
    ensures { (s : Session) → Running s l (slices principals.old principal_slots.old vars.now variable_slots.now locals.now local_slots.now assertions.old)
        → Ended result (step s (create_principal (part text.now p) (part text.now password))) (slices principals.new principal_slots.new vars.now variable_slots.now locals.now local_slots.now assertions.new) }
{
    let sender = l.sender;
    if sender != 0 {
        return Verdict::Denied;
    }
    let a = p.start;
    let b = p.end;
    let len = l.principals_len;
    let count = l.principals;
    let n = number_of(principals, principal_slots, len, count, &text[a..b]);
    if n != count {
        return Verdict::Failed;
    }
    let from = password.start;
    let to = password.end;
    let added = creation::add(principals, principal_slots, l, &text[a..b], &text[from..to]);
    let Entered::Done(k) = added else {
        return Verdict::Full;
    };
    let q = k.delegator;
    let given = creation::delegate_rights(
        principals,
        principal_slots,
        vars,
        variable_slots,
        locals,
        local_slots,
        assertions,
        targets,
        k,
        q,
        count,
    );
    match given {
        Entered::Full => Verdict::Full,
        Entered::Done(after) => Verdict::Done(after),
    }
}
