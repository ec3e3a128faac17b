// Delegations in a running session: assertions entered and withdrawn, and the two commands.
#![tactic(auto)]

ghost use Rattle.std.specs.Prelude.{List, ◌≤◌, length};
ghost use Rattle.language.specs.Syntax.{Name, set_delegation, delete_delegation};
ghost use Rattle.language.specs.Syntax as Syntax;
ghost use Rattle.language.specs.Values.{Session};
ghost use Rattle.language.specs.Commands.{assertions_on, step};
ghost use Rattle.session.specs.Sessions.{slices, Running, SomeRunning};
ghost use Rattle.session.specs.Endings.{Ended};
ghost use Rattle.text.specs.Meaning.{part, Within};
ghost use Rattle.forms.specs.Forms.{right_meant, target_meant, TargetWithin};
ghost use Rattle.assertion_changes.specs.Entering.{Ends, entered, withdrawn};
ghost use Rattle.delegations.specs.Delegates.{Delegates, SomeDelegates};

use assertion_changes::{Entered, entry, weigh};
use forms::{Right, Target};
use session::{Layout, Verdict};
use text::Span;

// Enters the assertions from q to p of a right on each of the first `count` targets.
pub fn enter_all(
    principals: &[u8],
    principal_slots: &[u32],
    vars: &[u8],
    variable_slots: &[u32],
    locals: &[u8],
    local_slots: &[u32],
    assertions: &mut [u64],
    l: Layout,
    targets: &[u32],
    count: usize,
    q: usize,
    right: u16,
    p: usize,
) -> Entered
    requires { SomeDelegates l (slices principals.now principal_slots.now vars.now variable_slots.now locals.now local_slots.now assertions.old) targets.now count q right p }
    ensures { (s : Session) (xs : List Name) (from : Name) (of : Syntax.Right) (to : Name)
        → Delegates s l (slices principals.now principal_slots.now vars.now variable_slots.now locals.now local_slots.now assertions.old) targets.now count q right p xs from of to
        → Ends result (entered s (assertions_on xs from of to)) (slices principals.now principal_slots.now vars.now variable_slots.now locals.now local_slots.now assertions.new) }
{
    let principals_len = l.principals_len;
    let principal_count = l.principals;
    let vars_len = l.vars_len;
    let variables = l.vars;
    let pair = weigh::pair(
        principals,
        principal_slots,
        principals_len,
        principal_count,
        q,
        p,
    );
    let mut k = l;
    for target in &targets[..count] {
        let x = *target as usize;
        let weight = weigh::variable(vars, variable_slots, vars_len, variables, x) + 1 + pair;
        let number = weigh::packed(x, q, right, p);
        let next = entry::enter_one(assertions, k, number, weight);
        let Entered::Done(after) = next else {
            return Entered::Full;
        };
        k = after;
    }
    Entered::Done(k)
}

// Withdraws those that stand of the assertions from q to p of a right on each of the first `count` targets.
fn withdraw_all(
    principals: &[u8],
    principal_slots: &[u32],
    vars: &[u8],
    variable_slots: &[u32],
    locals: &[u8],
    local_slots: &[u32],
    assertions: &mut [u64],
    l: Layout,
    targets: &[u32],
    count: usize,
    q: usize,
    right: u16,
    p: usize,
) -> Layout
    requires { SomeDelegates l (slices principals.now principal_slots.now vars.now variable_slots.now locals.now local_slots.now assertions.old) targets.now count q right p }
    ensures { (s : Session) (xs : List Name) (from : Name) (of : Syntax.Right) (to : Name)
        → Delegates s l (slices principals.now principal_slots.now vars.now variable_slots.now locals.now local_slots.now assertions.old) targets.now count q right p xs from of to
        → Running (withdrawn s (assertions_on xs from of to)) result (slices principals.now principal_slots.now vars.now variable_slots.now locals.now local_slots.now assertions.new) }
{
    let principals_len = l.principals_len;
    let principal_count = l.principals;
    let vars_len = l.vars_len;
    let variables = l.vars;
    let pair = weigh::pair(
        principals,
        principal_slots,
        principals_len,
        principal_count,
        q,
        p,
    );
    let mut k = l;
    for target in &targets[..count] {
        let x = *target as usize;
        let weight = weigh::variable(vars, variable_slots, vars_len, variables, x) + 1 + pair;
        k = entry::withdraw_one(assertions, k, weigh::packed(x, q, right, p), weight);
    }
    k
}

// Set delegation: enters the right, from q to p, on what the target is about.
pub fn set_delegation(
    principals: &[u8],
    principal_slots: &[u32],
    vars: &[u8],
    variable_slots: &[u32],
    locals: &[u8],
    local_slots: &[u32],
    assertions: &mut [u64],
    targets: &mut [u32],
    l: Layout,
    text: &[u8],
    target: Target,
    q: Span,
    right: Right,
    p: Span,
) -> Verdict
    requires some_running { SomeRunning l (slices principals.now principal_slots.now vars.now variable_slots.now locals.now local_slots.now assertions.old) }
    requires target_within { TargetWithin text.now target × Within text.now q × Within text.now p × (4096 ≤ length targets.old) }
    ensures { (s : Session) → Running s l (slices principals.now principal_slots.now vars.now variable_slots.now locals.now local_slots.now assertions.old)
        → Ended result (step s (set_delegation (target_meant text.now target) (part text.now q) (right_meant right) (part text.now p)))
        (slices principals.now principal_slots.now vars.now variable_slots.now locals.now local_slots.now assertions.new) }
{
    let k = delegation_rules::asked(
        principals,
        principal_slots,
        vars,
        variable_slots,
        l,
        text,
        target,
        q,
        p,
    );
    if delegation_rules::set_denied(assertions, l, k) {
        return Verdict::Denied;
    }
    if delegation_rules::missing(l, k) {
        return Verdict::Failed;
    }
    let count = delegation_rules::choose(assertions, l, k, targets);
    let code = delegation_rules::right_code(right);
    let done = enter_all(
        principals,
        principal_slots,
        vars,
        variable_slots,
        locals,
        local_slots,
        assertions,
        l,
        targets,
        count,
        k.giver,
        code,
        k.taker,
    );
    match done {
        Entered::Full => Verdict::Full,
        Entered::Done(after) => Verdict::Done(after),
    }
}

// Delete delegation: withdraws the right, from q to p, on what the target is about.
pub fn delete_delegation(
    principals: &[u8],
    principal_slots: &[u32],
    vars: &[u8],
    variable_slots: &[u32],
    locals: &[u8],
    local_slots: &[u32],
    assertions: &mut [u64],
    targets: &mut [u32],
    l: Layout,
    text: &[u8],
    target: Target,
    q: Span,
    right: Right,
    p: Span,
) -> Verdict
    requires some_running { SomeRunning l (slices principals.now principal_slots.now vars.now variable_slots.now locals.now local_slots.now assertions.old) }
    requires target_within { TargetWithin text.now target × Within text.now q × Within text.now p × (4096 ≤ length targets.old) }
    ensures { (s : Session) → Running s l (slices principals.now principal_slots.now vars.now variable_slots.now locals.now local_slots.now assertions.old)
        → Ended result (step s (delete_delegation (target_meant text.now target) (part text.now q) (right_meant right) (part text.now p)))
        (slices principals.now principal_slots.now vars.now variable_slots.now locals.now local_slots.now assertions.new) }
{
    let k = delegation_rules::asked(
        principals,
        principal_slots,
        vars,
        variable_slots,
        l,
        text,
        target,
        q,
        p,
    );
    if delegation_rules::delete_denied(assertions, l, k) {
        return Verdict::Denied;
    }
    if delegation_rules::missing(l, k) {
        return Verdict::Failed;
    }
    let count = delegation_rules::choose(assertions, l, k, targets);
    let code = delegation_rules::right_code(right);
    let after = withdraw_all(
        principals,
        principal_slots,
        vars,
        variable_slots,
        locals,
        local_slots,
        assertions,
        l,
        targets,
        count,
        k.giver,
        code,
        k.taker,
    );
    Verdict::Done(after)
}
