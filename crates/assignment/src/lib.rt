// A variable holds a value: a local of that name, or else a shared variable, or else one that is made.
#![tactic(auto)]

mod grants; // what the maker of a variable is granted

ghost use Rattle.std.specs.Prelude.{◌≡◌, false, List, ℕ, ◌≤◌, T};
ghost use Rattle.std.proofs.Math.Option.{none};
ghost use Rattle.language.specs.Text.{Text};
ghost use Rattle.language.specs.State.{Value, value_in, put};
ghost use Rattle.language.specs.Identifiers.{is_name};
ghost use Rattle.language.specs.Values.{Session, is_defined};
ghost use Rattle.language.specs.Commands.{assign, with_locals};
ghost use Rattle.session.specs.Sessions.{slices, Running, SomeRunning};
ghost use Rattle.session.specs.Layouts.{with_other_locals, with_other_shared};
ghost use Rattle.variable_text.specs.Puts.{SomeLying, Weighs, SomeWeighed};
ghost use Rattle.assignment.specs.Assignments.{SomeShared, SomeNew, Assigns};

use grants::{grant, grant_weight};
use session::Layout;
use store::index::find;
use variable_text::{Put, add, replace};

#[derive(Clone, Copy)]
pub enum Assigned {
    Full,
    Done(Layout),
}

// The layout with other locals.
pub fn with_locals(l: Layout, len: usize, count: usize, weight: usize) -> Layout
    ensures { result ≡ with_other_locals l len count weight }
{
    Layout {
        principals_len: l.principals_len,
        principals: l.principals,
        vars_len: l.vars_len,
        vars: l.vars,
        locals_len: len,
        locals: count,
        asserted: l.asserted,
        delegator: l.delegator,
        sender: l.sender,
        weight,
        is_open: l.is_open,
    }
}

// The layout with other shared variables and assertions.
pub fn with_shared(l: Layout, len: usize, count: usize, asserted: usize, weight: usize) -> Layout
    ensures { result ≡ with_other_shared l len count asserted weight }
{
    Layout {
        principals_len: l.principals_len,
        principals: l.principals,
        vars_len: len,
        vars: count,
        locals_len: l.locals_len,
        locals: l.locals,
        asserted,
        delegator: l.delegator,
        sender: l.sender,
        weight,
        is_open: l.is_open,
    }
}

// A new shared variable, with what its maker is granted.
fn make(
    principals: &[u8],
    principal_slots: &[u32],
    vars: &mut [u8],
    variable_slots: &mut [u32],
    assertions: &mut [u64],
    l: Layout,
    name: &[u8],
    value: &[u8],
    weight: usize,
) -> Assigned
    requires { SomeNew l principals.now principal_slots.now vars.old variable_slots.old assertions.old name.now × T (is_name name.now) × SomeWeighed value.now weight }
    ensures { (s : Session) (lo : Text) (lm : List ℕ) (v : Value)
        → Running s l (slices principals.now principal_slots.now vars.old variable_slots.old lo lm assertions.old)
        → value_in s.locals name.now ≡ none → value_in s.store.variables name.now ≡ none → Weighs v value.now weight
        → Assigns result (assign s name.now v) (slices principals.now principal_slots.now vars.new variable_slots.new lo lm assertions.new) }
{
    let principals_len = l.principals_len;
    let sender = l.sender;
    let count = l.vars;
    let extra = grant_weight(
        &principals[..principals_len],
        principal_slots,
        l.principals,
        sender,
        name.len(),
    );
    let put = add(
        vars,
        l.vars_len,
        variable_slots,
        count,
        name,
        value,
        weight,
        l.weight + extra,
    );
    let Put::Done { len, weight: w } = put else {
        return Assigned::Full;
    };
    let asserted = grant(assertions, l.asserted, count, sender);
    Assigned::Done(with_shared(l, len, count + 1, asserted, w))
}

// A shared variable, old or new.
fn assign_shared(
    principals: &[u8],
    principal_slots: &[u32],
    vars: &mut [u8],
    variable_slots: &mut [u32],
    assertions: &mut [u64],
    l: Layout,
    name: &[u8],
    value: &[u8],
    weight: usize,
) -> Assigned
    requires { SomeShared l principals.now principal_slots.now vars.old variable_slots.old assertions.old × T (is_name name.now) × SomeWeighed value.now weight }
    ensures { (s : Session) (lo : Text) (lm : List ℕ) (v : Value)
        → Running s l (slices principals.now principal_slots.now vars.old variable_slots.old lo lm assertions.old)
        → value_in s.locals name.now ≡ none → Weighs v value.now weight
        → Assigns result (assign s name.now v) (slices principals.now principal_slots.now vars.new variable_slots.new lo lm assertions.new) }
{
    let len = l.vars_len;
    let count = l.vars;
    let Some(found) = find(&vars[..len], variable_slots, count, name) else {
        return make(
            principals,
            principal_slots,
            vars,
            variable_slots,
            assertions,
            l,
            name,
            value,
            weight,
        );
    };
    let put = replace(
        vars,
        len,
        variable_slots,
        count,
        found.number,
        value,
        weight,
        l.weight,
    );
    let Put::Done { len: n, weight: w } = put else {
        return Assigned::Full;
    };
    Assigned::Done(with_shared(l, n, count, l.asserted, w))
}

// The variable of that name gets the value whose text is `value`, and which has the weight `weight`.
pub fn assign(
    principals: &[u8],
    principal_slots: &[u32],
    vars: &mut [u8],
    variable_slots: &mut [u32],
    locals: &mut [u8],
    local_slots: &mut [u32],
    assertions: &mut [u64],
    l: Layout,
    name: &[u8],
    value: &[u8],
    weight: usize,
) -> Assigned
    requires some_running { SomeRunning l (slices principals.now principal_slots.now vars.old variable_slots.old locals.old local_slots.old assertions.old) }
    requires t { T (is_name name.now) × SomeWeighed value.now weight }
    ensures { (s : Session) (v : Value)
        → Running s l (slices principals.now principal_slots.now vars.old variable_slots.old locals.old local_slots.old assertions.old)
        → Weighs v value.now weight
        → Assigns result (assign s name.now v) (slices principals.now principal_slots.now vars.new variable_slots.new locals.new local_slots.new assertions.new) }
{
    let len = l.locals_len;
    let count = l.locals;
    let Some(found) = find(&locals[..len], local_slots, count, name) else {
        return assign_shared(
            principals,
            principal_slots,
            vars,
            variable_slots,
            assertions,
            l,
            name,
            value,
            weight,
        );
    };
    let put = replace(
        locals,
        len,
        local_slots,
        count,
        found.number,
        value,
        weight,
        l.weight,
    );
    let Put::Done { len: n, weight: w } = put else {
        return Assigned::Full;
    };
    Assigned::Done(with_locals(l, n, count, w))
}

// A new local.
pub fn declare(
    locals: &mut [u8],
    local_slots: &mut [u32],
    l: Layout,
    name: &[u8],
    value: &[u8],
    weight: usize,
) -> Assigned
    requires { SomeLying locals.old l.locals_len l.locals local_slots.old l.weight × T (is_name name.now) × SomeWeighed value.now weight × (l.weight ≤ 8192) }
    ensures { (s : Session) (pe : Text) (pm : List ℕ) (sv : Text) (sm st : List ℕ) (v : Value)
        → Running s l (slices pe pm sv sm locals.old local_slots.old st)
        → is_defined s name.now ≡ false → Weighs v value.now weight
        → Assigns result (with_locals s (put name.now v s.locals)) (slices pe pm sv sm locals.new local_slots.new st) }
{
    let count = l.locals;
    let put = add(
        locals,
        l.locals_len,
        local_slots,
        count,
        name,
        value,
        weight,
        l.weight,
    );
    let Put::Done { len, weight: w } = put else {
        return Assigned::Full;
    };
    Assigned::Done(with_locals(l, len, count + 1, w))
}
