// The start of a run: who sends the program, and the session that it works on, a copy of the state's texts.
#![tactic(auto)]

ghost use Rattle.std.specs.Prelude.{◌≡◌, List, ℕ, ◌<◌, T};
ghost use Rattle.language.specs.Syntax.{Program};
ghost use Rattle.language.specs.State.{Principal, Store};
ghost use Rattle.language.specs.Valid.{valid_store};
ghost use Rattle.language.specs.Run as Run;
ghost use Rattle.store.specs.Held.{Principals, SomePrincipals};
ghost use Rattle.store.specs.Rows.{position};
ghost use Rattle.store.specs.Contents.{principal_at};
ghost use Rattle.named_rights.specs.Numbers as Numbers;
ghost use Rattle.validate.specs.Checked.{Represents};
ghost use Rattle.session.specs.Sessions.{slices, Sized, Running};
ghost use Rattle.opening.specs.Logins.{LoginMeant, SomeState};
ghost use Rattle.opening.specs.Beginnings.{SomeValid};

use contents::password_of;
use session::Layout;
use store::index::find;
use text::same_bytes;
use validate::Parts;
use value_text::copy_in;

// Whether a principal's password is kept and is the one given.
fn opens(principals: &[u8], slots: &[u32], count: usize, number: usize, password: &[u8]) -> bool
    requires { SomePrincipals principals.now count slots.now × (number < count) }
    ensures { (ks : List Principal) → Principals ks principals.now count slots.now
        → result ≡ Run.opens password.now (principal_at ks number).password }
{
    match password_of(principals, slots, count, number) {
        Some(kept) => same_bytes(password, &principals[kept.start..kept.end]),
        None => false,
    }
}

// Who the sender of a program is, by number. None where the login is mistaken: the name is missing, the password is another, or none is kept.
pub fn log_in(
    state: &[u8],
    principal_slots: &[u32],
    parts: Parts,
    name: &[u8],
    password: &[u8],
) -> Option<usize>
    requires { SomeState state.now principal_slots.now parts }
    ensures { (variable_slots assertions : List ℕ) (s : Store) → Represents state.now principal_slots.now variable_slots assertions parts s
        → LoginMeant result s name.now password.now }
{
    let from = parts.principals_from;
    let to = parts.principals_to;
    let count = parts.principals;
    let principals = &state[from..to];
    let Some(found) = find(principals, principal_slots, count, name) else {
        return None;
    };
    if opens(principals, principal_slots, count, found.number, password) {
        Some(found.number)
    } else {
        None
    }
}

// The session that a program of a sender begins with: the state's texts copied to the starts of lent buffers, and no locals.
pub fn begin(
    state: &[u8],
    principal_slots: &[u32],
    variable_slots: &[u32],
    assertions: &[u64],
    parts: Parts,
    sender: usize,
    principals: &mut [u8],
    vars: &mut [u8],
    locals: &[u8],
    local_slots: &[u32],
) -> Layout
    requires some_valid { SomeValid state.now principal_slots.now variable_slots.now assertions.now parts }
    requires sized { Sized (slices principals.old principal_slots.now vars.old variable_slots.now locals.now local_slots.now assertions.now) }
    ensures { (s : Store) (p : Program) → Represents state.now principal_slots.now variable_slots.now assertions.now parts s
        → T (valid_store s) → Run.login s p ≡ Run.right → sender ≡ position (Numbers.principals_of s) p.sender
        → Running (Run.begin s p) result (slices principals.new principal_slots.now vars.new variable_slots.now locals.now local_slots.now assertions.now) }
{
    let principals_from = parts.principals_from;
    let principals_to = parts.principals_to;
    let vars_from = parts.vars_from;
    let vars_to = parts.vars_to;
    let principals_len = copy_in(principals, 0, &state[principals_from..principals_to]);
    let vars_len = copy_in(vars, 0, &state[vars_from..vars_to]);
    Layout {
        principals_len,
        principals: parts.principals,
        vars_len,
        vars: parts.vars,
        locals_len: 0,
        locals: 0,
        asserted: parts.asserted,
        delegator: parts.delegator,
        sender,
        weight: parts.weight,
        is_open: parts.open,
    }
}
