// Change password on a running session, and what a password weighs.
#![tactic(auto)]

ghost use Rattle.std.specs.Prelude.{◌≡◌, List, ◌≤◌, ◌<◌, T, length, take};
ghost use Rattle.language.specs.Syntax.{change_password};
ghost use Rattle.language.specs.Programs.{longest};
ghost use Rattle.language.specs.State.{Principal};
ghost use Rattle.language.specs.Weight.{password_weight};
ghost use Rattle.language.specs.Values.{Session};
ghost use Rattle.language.specs.Commands.{step};
ghost use Rattle.language.proofs.Parsing.ValidPrograms.{valid_command};
ghost use Rattle.text.specs.Meaning.{part, Within};
ghost use Rattle.store.specs.Held.{Principals, SomePrincipals};
ghost use Rattle.store.specs.Contents.{principal_at};
ghost use Rattle.session.specs.Sessions.{slices, Running, SomeRunning};
ghost use Rattle.session.specs.Endings.{Ended};

use contents::{number_of, password_of};
use session::{Layout, Verdict};
use text::Span;

// What a principal's password weighs: its length, or nothing where there is none.
fn password_weight(
    principals: &[u8],
    len: usize,
    slots: &[u32],
    count: usize,
    number: usize,
) -> usize
    requires { (len ≤ length principals.now) × SomePrincipals (take len principals.now) count slots.now × (number < count) }
    ensures { (ks : List Principal) → Principals ks (take len principals.now) count slots.now → result ≡ password_weight (principal_at ks number).password }
{
    match password_of(&principals[..len], slots, count, number) {
        Some(p) => p.end - p.start,
        None => 0,
    }
}

// Another password: admin may set anybody's, the others their own.
pub fn change_password(
    principals: &mut [u8],
    principal_slots: &mut [u32],
    vars: &[u8],
    variable_slots: &[u32],
    locals: &[u8],
    local_slots: &[u32],
    assertions: &[u64],
    l: Layout,
    text: &[u8],
    p: Span,
    password: Span,
) -> Verdict
    requires some_running { SomeRunning l (slices principals.old principal_slots.old vars.now variable_slots.now locals.now local_slots.now assertions.now) }
    requires within { Within text.now p × Within text.now password × T (valid_command (change_password (part text.now p) (part text.now password))) × (length text.now ≤ longest) }
    ensures { (s : Session) → Running s l (slices principals.old principal_slots.old vars.now variable_slots.now locals.now local_slots.now assertions.now)
        → Ended result (step s (change_password (part text.now p) (part text.now password))) (slices principals.new principal_slots.new vars.now variable_slots.now locals.now local_slots.now assertions.now) }
{
    let a = p.start;
    let b = p.end;
    let len = l.principals_len;
    let count = l.principals;
    let sender = l.sender;
    let n = number_of(principals, principal_slots, len, count, &text[a..b]);
    if sender != 0 {
        if sender != n {
            return Verdict::Denied;
        }
    }
    if n == count {
        return Verdict::Failed;
    }
    let old = password_weight(principals, len, principal_slots, count, n);
    let from = password.start;
    let to = password.end;
    let weight = l.weight - old + (to - from);
    if 8192 < weight {
        return Verdict::Full;
    }
    let new = edits::change::set_password(
        principals,
        len,
        principal_slots,
        count,
        n,
        &text[from..to],
    );
    let mut k = l;
    k.principals_len = new;
    k.weight = weight;
    Verdict::Done(k)
}
