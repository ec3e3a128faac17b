// A list gets more elements: a list of that name among the locals, or else among the shared variables.
#![tactic(auto)]

ghost use Rattle.std.specs.Prelude.{◌≡◌, List, ◌++◌, ℕ, ◌≤◌, T};
ghost use Rattle.std.proofs.Math.Option.{none, some};
ghost use Rattle.language.specs.Text.{Text};
ghost use Rattle.language.specs.State.{Element, Value, list, value_in};
ghost use Rattle.language.specs.Identifiers.{is_name};
ghost use Rattle.language.specs.Values.{Session, lookup};
ghost use Rattle.language.specs.Commands.{assign, extend};
ghost use Rattle.session.specs.Sessions.{slices, Running};
ghost use Rattle.variable_text.specs.Puts.{Weighs, SomeWeighed, Extra};
ghost use Rattle.assignment.specs.Assignments.{Assigns};
ghost use Rattle.extension.specs.Extensions.{Adds, SomeSharedList, SomeList};

use assignment::{Assigned, with_locals, with_shared};
use session::Layout;
use store::index::find;
use values::Kind;
use variable_text::{Put, extend};

// Where the text of the elements starts that a value adds to a list, and what they weigh there.
#[derive(Clone, Copy)]
pub struct Elements {
    pub from: usize,
    pub weight: usize,
}

// A list's elements stand after its first line; anything else is one element.
fn elements_of(value: &[u8], weight: usize) -> Elements
    requires { SomeWeighed value.now weight }
    ensures { (v : Value) → Weighs v value.now weight → Adds v value.now result.from result.weight }
{
    let kind = values::kind_of(value);
    match kind {
        Kind::Text => Elements {
            from: 0,
            weight: weight + 1,
        },
        Kind::Record => Elements {
            from: 0,
            weight: weight + 1,
        },
        Kind::List => Elements { from: 2, weight },
    }
}

// A shared list.
fn join_shared(
    principals: &[u8],
    principal_slots: &[u32],
    vars: &mut [u8],
    variable_slots: &mut [u32],
    assertions: &[u64],
    l: Layout,
    name: &[u8],
    more: &[u8],
    weight: usize,
) -> Assigned
    requires { SomeSharedList l principals.now principal_slots.now vars.old variable_slots.old assertions.now name.now more.now weight × T (is_name name.now) × (weight ≤ 65536) }
    ensures { (s : Session) (lo : Text) (lm : List ℕ) (es fs : List Element)
        → Running s l (slices principals.now principal_slots.now vars.old variable_slots.old lo lm assertions.now)
        → value_in s.locals name.now ≡ none → value_in s.store.variables name.now ≡ some (list es) → Extra fs more.now weight
        → Assigns result (assign s name.now (list (es ++ fs))) (slices principals.now principal_slots.now vars.new variable_slots.new lo lm assertions.now) }
{
    let len = l.vars_len;
    let count = l.vars;
    let Some(found) = find(&vars[..len], variable_slots, count, name) else {
        return Assigned::Full;
    };
    let put = extend(
        vars,
        len,
        variable_slots,
        count,
        found.number,
        more,
        weight,
        l.weight,
    );
    let Put::Done { len: n, weight: w } = put else {
        return Assigned::Full;
    };
    Assigned::Done(with_shared(l, n, count, l.asserted, w))
}

// The list of that name gets what the value adds, whose text is `value` and which has the weight `weight`.
pub fn join(
    principals: &[u8],
    principal_slots: &[u32],
    vars: &mut [u8],
    variable_slots: &mut [u32],
    locals: &mut [u8],
    local_slots: &mut [u32],
    assertions: &[u64],
    l: Layout,
    name: &[u8],
    value: &[u8],
    weight: usize,
) -> Assigned
    requires some_list { SomeList l (slices principals.now principal_slots.now vars.old variable_slots.old locals.old local_slots.old assertions.now) name.now }
    requires t { T (is_name name.now) × SomeWeighed value.now weight }
    ensures { (s : Session) (v : Value) (es : List Element)
        → Running s l (slices principals.now principal_slots.now vars.old variable_slots.old locals.old local_slots.old assertions.now)
        → lookup s name.now ≡ some (list es) → Weighs v value.now weight
        → Assigns result (assign s name.now (list (extend es v))) (slices principals.now principal_slots.now vars.new variable_slots.new locals.new local_slots.new assertions.now) }
{
    let more = elements_of(value, weight);
    let from = more.from;
    let to = value.len();
    let len = l.locals_len;
    let count = l.locals;
    let Some(found) = find(&locals[..len], local_slots, count, name) else {
        return join_shared(
            principals,
            principal_slots,
            vars,
            variable_slots,
            assertions,
            l,
            name,
            &value[from..to],
            more.weight,
        );
    };
    let put = extend(
        locals,
        len,
        local_slots,
        count,
        found.number,
        &value[from..to],
        more.weight,
        l.weight,
    );
    let Put::Done { len: n, weight: w } = put else {
        return Assigned::Full;
    };
    Assigned::Done(with_locals(l, n, count, w))
}
