// The list that foreach and filtereach go through, and whether the sender may send them.
#![tactic(auto)]

ghost use Rattle.std.specs.Prelude.{◌≡◌, not, ◌≤◌, length};
ghost use Rattle.std.proofs.Math.Option.{some};
ghost use Rattle.language.specs.Syntax as Syntax;
ghost use Rattle.language.specs.Values.{Session};
ghost use Rattle.language.specs.Commands.{elements};
ghost use Rattle.text.specs.Meaning.{part, Within};
ghost use Rattle.syntax.specs.Values.{expr_meant, SomeExpr};
ghost use Rattle.lookup.specs.Looks.{Scoped, Sending, SomeSending};
ghost use Rattle.session.specs.Sessions.{slices, Running, SomeRunning};
ghost use Rattle.foreach_source.specs.Sources.{forbidden, SomeLight, Sourced, Prepares};

use assertion::{READ, WRITE};
use permits::Known;
use session::Layout;
use syntax::Expr;
use text::Span;

// Where a list's text was copied to the front of a buffer, its length.
#[derive(Clone, Copy)]
pub enum Source {
    List(usize),
    No,
}

// What is known before the first element is tried: that the sender may not read and write the list; that there is none; or its text's
// length, and what is known of the terms of the expression.
#[derive(Clone, Copy)]
pub enum Prepared {
    Denied,
    Failed,
    List(usize, Known),
}

// Whether the sender may read and write what a name stands for.
fn may_replace(
    vars: &[u8],
    variable_slots: &[u32],
    assertions: &[u64],
    l: Layout,
    name: &[u8],
) -> bool
    requires { SomeSending l vars.now variable_slots.now assertions.now }
    ensures { (s : Session) → Sending s l vars.now variable_slots.now assertions.now
        → forbidden s name.now ≡ not result }
{
    if !lookup::may_do(vars, variable_slots, assertions, l, name, READ) {
        return false;
    }
    lookup::may_do(vars, variable_slots, assertions, l, name, WRITE)
}

// Copies the value of x, where that is a list and y is undefined.
fn copy_list<'a>(
    vars: &'a [u8],
    variable_slots: &[u32],
    locals: &'a [u8],
    local_slots: &[u32],
    l: Layout,
    text: &[u8],
    y: Span,
    x: Span,
    out: &mut [u8],
) -> Source
    requires some_light { SomeLight l vars.now variable_slots.now locals.now local_slots.now }
    requires within { Within text.now y × Within text.now x × (32768 ≤ length out.old) }
    ensures { (s : Session) → Scoped s l vars.now variable_slots.now locals.now local_slots.now
        → Sourced result (elements s (part text.now y) (part text.now x)) out.new }
{
    let a = y.start;
    let b = y.end;
    if lookup::is_defined(vars, variable_slots, locals, local_slots, l, &text[a..b]) {
        return Source::No;
    }
    let c = x.start;
    let d = x.end;
    let value = lookup::text_of(vars, variable_slots, locals, local_slots, l, &text[c..d]);
    if !lookup::list_read(value) {
        return Source::No;
    }
    let n = value_text::copy_in(out, 0, value);
    Source::List(n)
}

// The rights on the list, and what of it there is to go through. An empty list asks for no right to read the expression.
pub fn prepare<'a>(
    principals: &[u8],
    principal_slots: &[u32],
    vars: &'a [u8],
    variable_slots: &[u32],
    locals: &'a [u8],
    local_slots: &[u32],
    assertions: &[u64],
    out: &mut [u8],
    l: Layout,
    text: &[u8],
    y: Span,
    x: Span,
    e: Expr,
) -> Prepared
    requires some_running { SomeRunning l (slices principals.now principal_slots.now vars.now variable_slots.now locals.now local_slots.now assertions.now) }
    requires within { Within text.now y × Within text.now x × SomeExpr text.now e × (32768 ≤ length out.old) }
    ensures { (s : Session) (u : Syntax.Expr)
        → Running s l (slices principals.now principal_slots.now vars.now variable_slots.now locals.now local_slots.now assertions.now)
        → expr_meant text.now e ≡ some u → Prepares result s (part text.now y) (part text.now x) u out.new }
{
    let a = x.start;
    let b = x.end;
    if !may_replace(vars, variable_slots, assertions, l, &text[a..b]) {
        return Prepared::Denied;
    }
    let found = copy_list(
        vars,
        variable_slots,
        locals,
        local_slots,
        l,
        text,
        y,
        x,
        out,
    );
    let Source::List(n) = found else {
        return Prepared::Failed;
    };
    if n == 2 {
        return Prepared::List(n, Known::Nothing);
    }
    let m = l.vars_len;
    let known = expression_rights::known(
        &vars[..m],
        variable_slots,
        l.vars,
        assertions,
        l.asserted,
        l.principals,
        l.sender,
        text,
        e,
    );
    Prepared::List(n, known)
}
