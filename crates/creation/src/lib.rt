// A principal is created: added last, and then given what the default delegator may delegate.
#![tactic(auto)]

ghost use Rattle.std.specs.Prelude.{◌≤◌, ◌<◌, length, get_or};
ghost use Rattle.language.specs.Programs.{longest};
ghost use Rattle.language.specs.Syntax.{Name, delegate, rights};
ghost use Rattle.language.specs.Values.{Session};
ghost use Rattle.language.specs.Commands.{with_store, with_principal, enter_all, delegations};
ghost use Rattle.session.specs.Sessions.{Slices, slices};
ghost use Rattle.assertion_changes.specs.Entering.{Ends};
ghost use Rattle.creation.specs.Creating.{with_principal_text, New, SomeNew, delegated, Gives, SomeGives};

use assertion_changes::Entered;
use session::Layout;

// Adds a principal that is not there. Its name weighs its length, since admin and anyone are there, and 10 are for its count.
pub fn add(
    principals: &mut [u8],
    principal_slots: &mut [u32],
    l: Layout,
    name: &[u8],
    password: &[u8],
) -> Entered
    requires { SomeNew l principals.old principal_slots.old name.now password.now × (length name.now ≤ longest) × (length password.now ≤ longest) }
    ensures { (s : Session) (b : Slices) → New s l b principals.old principal_slots.old name.now password.now
        → Ends result (with_store s (with_principal s.store name.now password.now)) (with_principal_text b principals.new principal_slots.new) }
{
    let len = l.principals_len;
    let count = l.principals;
    let weight = l.weight + 11 + name.len() + password.len();
    if 8192 < weight {
        return Entered::Full;
    }
    let end = edits::add::add_principal(principals, len, principal_slots, count, name, password);
    let mut k = l;
    k.principals_len = end;
    k.principals = count + 1;
    k.weight = weight;
    Entered::Done(k)
}

// Delegates a right on all variables on which principal q has delegate to principal p.
fn delegate_all(
    principals: &[u8],
    principal_slots: &[u32],
    vars: &[u8],
    variable_slots: &[u32],
    locals: &[u8],
    local_slots: &[u32],
    assertions: &mut [u64],
    targets: &mut [u32],
    l: Layout,
    q: usize,
    right: u16,
    p: usize,
) -> Entered
    requires some_gives { SomeGives l (slices principals.now principal_slots.now vars.now variable_slots.now locals.now local_slots.now assertions.old) q p }
    requires right_bound { (right < 4) × (4096 ≤ length targets.old) }
    ensures { (s : Session) (from to : Name)
        → Gives s l (slices principals.now principal_slots.now vars.now variable_slots.now locals.now local_slots.now assertions.old) q p from to
        → Ends result (with_store s (delegated s.store (get_or rights right delegate) from to)) (slices principals.now principal_slots.now vars.now variable_slots.now locals.now local_slots.now assertions.new) }
{
    let asserted = l.asserted;
    let principal_count = l.principals;
    let variables = l.vars;
    let n = delegation_rules::collect(assertions, asserted, principal_count, variables, q, targets);
    delegations::enter_all(
        principals,
        principal_slots,
        vars,
        variable_slots,
        locals,
        local_slots,
        assertions,
        l,
        targets,
        n,
        q,
        right,
        p,
    )
}

// The same for each of the four rights in turn.
pub fn delegate_rights(
    principals: &[u8],
    principal_slots: &[u32],
    vars: &[u8],
    variable_slots: &[u32],
    locals: &[u8],
    local_slots: &[u32],
    assertions: &mut [u64],
    targets: &mut [u32],
    l: Layout,
    q: usize,
    p: usize,
) -> Entered
    requires { SomeGives l (slices principals.now principal_slots.now vars.now variable_slots.now locals.now local_slots.now assertions.old) q p × (4096 ≤ length targets.old) }
    ensures { (s : Session) (from to : Name)
        → Gives s l (slices principals.now principal_slots.now vars.now variable_slots.now locals.now local_slots.now assertions.old) q p from to
        → Ends result (with_store s (enter_all s.store (delegations rights s.store from to))) (slices principals.now principal_slots.now vars.now variable_slots.now locals.now local_slots.now assertions.new) }
{
    let mut k = l;
    for right in 0..4u16 {
        let next = delegate_all(
            principals,
            principal_slots,
            vars,
            variable_slots,
            locals,
            local_slots,
            assertions,
            targets,
            k,
            q,
            right,
            p,
        );
        let Entered::Done(after) = next else {
            return Entered::Full;
        };
        k = after;
    }
    Entered::Done(k)
}
