// What a running session says of a name and of an expression, by its buffers and its layout.
#![tactic(auto)]

ghost use Rattle.std.specs.Prelude.{◌≡◌, ◌||◌};
ghost use Rattle.std.proofs.Math.Option.{Option, some};
ghost use Rattle.language.specs.Text.{present};
ghost use Rattle.language.specs.State.{Value};
ghost use Rattle.language.specs.Syntax as Syntax;
ghost use Rattle.language.specs.Syntax.{write, append};
ghost use Rattle.language.specs.Values.{Session, lookup, is_defined};
ghost use Rattle.named_rights.specs.Numbers.{code};
ghost use Rattle.permits.specs.Permits.{allowed_on};
ghost use Rattle.syntax.specs.Values.{expr_meant};
ghost use Rattle.scopes.specs.Scopes.{ReadAs, SomeRead};
ghost use Rattle.evaluate.specs.Drafts.{Lent};
ghost use Rattle.lookup.specs.Looks.{elements_in, Scoped, SomeScoped, Sending, SomeSending, Copyable, Said};
ghost use Rattle.lookup.specs.Told.{Answers};

use assertion::{APPEND, WRITE};
use contents::read;
use evaluated::Answered;
use permits::{Known, allowed};
use session::Layout;
use syntax::Expr;
use values::Kind;

// Whether what was read is a list.
pub fn list_read(value: &[u8]) -> bool
    requires { SomeRead value.now }
    ensures { (o : Option Value) → ReadAs o value.now → result ≡ present (elements_in o) }
{
    if value.len() == 0 {
        return false;
    }
    let kind = values::kind_of(value);
    match kind {
        Kind::Text => false,
        Kind::Record => false,
        Kind::List => true,
    }
}

// The text of the value of a name, a local before a shared variable; nothing where it has none.
pub fn text_of<'a>(
    vars: &'a [u8],
    variable_slots: &[u32],
    locals: &'a [u8],
    local_slots: &[u32],
    l: Layout,
    name: &[u8],
) -> &'a [u8]
    requires { SomeScoped l vars.now variable_slots.now locals.now local_slots.now }
    ensures { (s : Session) → Scoped s l vars.now variable_slots.now locals.now local_slots.now
        → ReadAs (lookup s name.now) result.now }
{
    let n = l.vars_len;
    let m = l.locals_len;
    read(
        &vars[..n],
        variable_slots,
        l.vars,
        &locals[..m],
        local_slots,
        l.locals,
        name,
    )
}

// Whether the value of a name is a list.
pub fn is_list<'a>(
    vars: &'a [u8],
    variable_slots: &[u32],
    locals: &'a [u8],
    local_slots: &[u32],
    l: Layout,
    name: &[u8],
) -> bool
    requires { SomeScoped l vars.now variable_slots.now locals.now local_slots.now }
    ensures { (s : Session) → Scoped s l vars.now variable_slots.now locals.now local_slots.now
        → result ≡ present (elements_in (lookup s name.now)) }
{
    list_read(text_of(vars, variable_slots, locals, local_slots, l, name))
}

// Whether a name has a value.
pub fn is_defined<'a>(
    vars: &'a [u8],
    variable_slots: &[u32],
    locals: &'a [u8],
    local_slots: &[u32],
    l: Layout,
    name: &[u8],
) -> bool
    requires { SomeScoped l vars.now variable_slots.now locals.now local_slots.now }
    ensures { (s : Session) → Scoped s l vars.now variable_slots.now locals.now local_slots.now
        → result ≡ is_defined s name.now }
{
    let shared = l.vars_len;
    let own = l.locals_len;
    scopes::is_defined(
        &vars[..shared],
        variable_slots,
        l.vars,
        &locals[..own],
        local_slots,
        l.locals,
        name,
    )
}

// Whether the sender may do to a name what the right allows.
pub fn may_do(
    vars: &[u8],
    variable_slots: &[u32],
    assertions: &[u64],
    l: Layout,
    name: &[u8],
    right: u16,
) -> bool
    requires { SomeSending l vars.now variable_slots.now assertions.now }
    ensures { (s : Session) (r : Syntax.Right) → Sending s l vars.now variable_slots.now assertions.now
        → right ≡ code r → result ≡ allowed_on s r name.now }
{
    let n = l.vars_len;
    allowed(
        &vars[..n],
        variable_slots,
        l.vars,
        assertions,
        l.asserted,
        l.principals,
        l.sender,
        name,
        right,
    )
}

// Whether the sender may append to a name: write or append will do.
pub fn may_append(
    vars: &[u8],
    variable_slots: &[u32],
    assertions: &[u64],
    l: Layout,
    name: &[u8],
) -> bool
    requires { SomeSending l vars.now variable_slots.now assertions.now }
    ensures { (s : Session) → Sending s l vars.now variable_slots.now assertions.now
        → result ≡ (allowed_on s write name.now || allowed_on s append name.now) }
{
    if may_do(vars, variable_slots, assertions, l, name, WRITE) {
        return true;
    }
    may_do(vars, variable_slots, assertions, l, name, APPEND)
}

// The answer for any expression. It has room for a `let`, whose frame of 139 KB each call touches: for a term `answer` is quicker.
pub fn any_answer<'a>(
    vars: &'a [u8],
    variable_slots: &[u32],
    locals: &'a [u8],
    local_slots: &[u32],
    assertions: &[u64],
    l: Layout,
    text: &'a [u8],
    e: Expr,
    value: &mut [u8],
    labels: &mut [u32],
) -> Answered
    requires some_scoped { SomeScoped l vars.now variable_slots.now locals.now local_slots.now × SomeSending l vars.now variable_slots.now assertions.now }
    requires said { Said text.now e × Lent value.old labels.old }
    requires copyable { Copyable locals.now local_slots.now }
    ensures { (s : Session) (y : Syntax.Expr) → Scoped s l vars.now variable_slots.now locals.now local_slots.now
        → Sending s l vars.now variable_slots.now assertions.now
        → expr_meant text.now e ≡ some y → Answers result s y value.new }
{
    let n = l.vars_len;
    let m = l.locals_len;
    match e {
        Expr::Term(t) => term_answer::answer(
            &vars[..n],
            variable_slots,
            l.vars,
            &locals[..m],
            local_slots,
            l.locals,
            assertions,
            l.asserted,
            l.principals,
            l.sender,
            text,
            t,
            Known::Nothing,
            value,
            labels,
        ),
        Expr::Let(p) => let_aside::answer(
            &vars[..n],
            variable_slots,
            l.vars,
            &locals[..m],
            local_slots,
            l.locals,
            assertions,
            l.asserted,
            l.principals,
            l.sender,
            text,
            p,
            value,
            labels,
        ),
    }
}

// The answer for an expression. The command asks its own rule of the sender first.
pub fn answer<'a>(
    vars: &'a [u8],
    variable_slots: &[u32],
    locals: &'a [u8],
    local_slots: &[u32],
    assertions: &[u64],
    l: Layout,
    text: &'a [u8],
    e: Expr,
    value: &mut [u8],
    labels: &mut [u32],
) -> Answered
    requires some_scoped { SomeScoped l vars.now variable_slots.now locals.now local_slots.now × SomeSending l vars.now variable_slots.now assertions.now }
    requires said { Said text.now e × Lent value.old labels.old }
    requires copyable { Copyable locals.now local_slots.now }
    ensures { (s : Session) (y : Syntax.Expr) → Scoped s l vars.now variable_slots.now locals.now local_slots.now
        → Sending s l vars.now variable_slots.now assertions.now
        → expr_meant text.now e ≡ some y → Answers result s y value.new }
{
    let vars_end = l.vars_len;
    let locals_end = l.locals_len;
    match e {
        Expr::Term(t) => term_answer::answer(
            &vars[..vars_end],
            variable_slots,
            l.vars,
            &locals[..locals_end],
            local_slots,
            l.locals,
            assertions,
            l.asserted,
            l.principals,
            l.sender,
            text,
            t,
            Known::Nothing,
            value,
            labels,
        ),
        Expr::Let(_) => any_answer(
            vars,
            variable_slots,
            locals,
            local_slots,
            assertions,
            l,
            text,
            e,
            value,
            labels,
        ),
    }
}
