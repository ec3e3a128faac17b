// foreach and filtereach: what becomes of each element of a list is put in its place.
#![tactic(auto)]

ghost use Rattle.std.specs.Prelude.{◌≡◌, false, List, T};
ghost use Rattle.std.proofs.Math.Option.{some};
ghost use Rattle.language.specs.Text.{Text};
ghost use Rattle.language.specs.Syntax as Syntax;
ghost use Rattle.language.specs.State.{Element};
ghost use Rattle.language.specs.Identifiers.{is_name};
ghost use Rattle.language.specs.Outcomes.{Outcome};
ghost use Rattle.language.specs.Values.{Session};
ghost use Rattle.language.specs.Commands.{effect, denied, step};
ghost use Rattle.text.specs.Meaning.{part, Within};
ghost use Rattle.syntax.specs.Values.{expr_meant};
ghost use Rattle.session.specs.Sessions.{slices, Running, SomeRunning};
ghost use Rattle.session.specs.Endings.{Ended};
ghost use Rattle.foreach_piece.specs.Drafts.{AsList, Drafted, SomeDraft};
ghost use Rattle.foreach_source.specs.declared.Prepared.TheVariants as Source;
ghost use Rattle.foreach_source.specs.Sources.{Prepares};
ghost use Rattle.foreach_command.specs.Each.{command, putting, SomeSource, SomeEach, Workspace};

use assignment::Assigned;
use foreach_piece::{Draft, Made, Way};
use foreach_room::make_aside;
use foreach_source::{Prepared, prepare};
use permits::Known;
use session::{Layout, Verdict};
use syntax::Expr;
use text::Span;

// Puts the new list in the place of the old one.
fn put_list(
    principals: &[u8],
    principal_slots: &[u32],
    vars: &mut [u8],
    variable_slots: &mut [u32],
    locals: &mut [u8],
    local_slots: &mut [u32],
    assertions: &mut [u64],
    l: Layout,
    text: &[u8],
    x: Span,
    new: &[u8],
    d: Draft,
) -> Verdict
    requires some_running { SomeRunning l (slices principals.now principal_slots.now vars.old variable_slots.old locals.old local_slots.old assertions.old) }
    requires within { Within text.now x × T (is_name (part text.now x)) × SomeDraft AsList new.now d }
    ensures { (s : Session) (c : Syntax.Command) (line : Text) (o : Outcome (List Element))
        → Running s l (slices principals.now principal_slots.now vars.old variable_slots.old locals.old local_slots.old assertions.old)
        → Drafted AsList o new.now d → denied s c ≡ false → effect s c ≡ putting s (part text.now x) line o
        → Ended result (step s c) (slices principals.now principal_slots.now vars.new variable_slots.new locals.new local_slots.new assertions.new) }
{
    let weight = d.weight;
    if 8192 < weight {
        return Verdict::Full;
    }
    let len = d.len;
    let a = x.start;
    let b = x.end;
    let put = assignment::assign(
        principals,
        principal_slots,
        vars,
        variable_slots,
        locals,
        local_slots,
        assertions,
        l,
        &text[a..b],
        &new[..len],
        weight,
    );
    let Assigned::Done(k) = put else {
        return Verdict::Full;
    };
    Verdict::Done(k)
}

// Tries the elements of the list in the first `n` bytes of `elements`, and puts what becomes of them in its place.
fn make_list(
    principals: &[u8],
    principal_slots: &[u32],
    vars: &mut [u8],
    variable_slots: &mut [u32],
    locals: &mut [u8],
    local_slots: &mut [u32],
    assertions: &mut [u64],
    value: &mut [u8],
    elements: &[u8],
    labels: &mut [u32],
    l: Layout,
    text: &[u8],
    y: Span,
    x: Span,
    e: Expr,
    n: usize,
    known: Known,
    way: Way,
) -> Verdict
    requires some_source { SomeSource l (slices principals.now principal_slots.now vars.old variable_slots.old locals.old local_slots.old assertions.old) text.now y x e elements.now n known }
    requires some_each { SomeEach way text.now y x e × Workspace value.old labels.old }
    ensures { (s : Session) (u : Syntax.Expr)
        → Running s l (slices principals.now principal_slots.now vars.old variable_slots.old locals.old local_slots.old assertions.old)
        → expr_meant text.now e ≡ some u → Prepares (Source.List n known) s (part text.now y) (part text.now x) u elements.now
        → Ended result (step s (command way (part text.now y) (part text.now x) u)) (slices principals.now principal_slots.now vars.new variable_slots.new locals.new local_slots.new assertions.new) }
{
    let mut new = [0u8; 32768];
    let vars_len = l.vars_len;
    let made = make_aside(
        &vars[..vars_len],
        variable_slots,
        l.vars,
        locals,
        l.locals_len,
        local_slots,
        l.locals,
        assertions,
        l.asserted,
        l.principals,
        l.sender,
        text,
        y,
        e,
        known,
        way,
        &elements[..n],
        value,
        &mut new,
        labels,
    );
    match made {
        Made::Denied => Verdict::Denied,
        Made::No => Verdict::Failed,
        Made::Done(d) => put_list(
            principals,
            principal_slots,
            vars,
            variable_slots,
            locals,
            local_slots,
            assertions,
            l,
            text,
            x,
            &new,
            d,
        ),
    }
}

// The command on the list x with y for its elements. `value` and `labels` are room to work in; the list is copied before it is replaced.
pub fn run(
    principals: &[u8],
    principal_slots: &[u32],
    vars: &mut [u8],
    variable_slots: &mut [u32],
    locals: &mut [u8],
    local_slots: &mut [u32],
    assertions: &mut [u64],
    value: &mut [u8],
    labels: &mut [u32],
    l: Layout,
    text: &[u8],
    y: Span,
    x: Span,
    e: Expr,
    way: Way,
) -> Verdict
    requires some_running { SomeRunning l (slices principals.now principal_slots.now vars.old variable_slots.old locals.old local_slots.old assertions.old) }
    requires some_each { SomeEach way text.now y x e × Workspace value.old labels.old }
    ensures { (s : Session) (u : Syntax.Expr)
        → Running s l (slices principals.now principal_slots.now vars.old variable_slots.old locals.old local_slots.old assertions.old)
        → expr_meant text.now e ≡ some u
        → Ended result (step s (command way (part text.now y) (part text.now x) u)) (slices principals.now principal_slots.now vars.new variable_slots.new locals.new local_slots.new assertions.new) }
{
    let mut elements = [0u8; 32768];
    let p = prepare(
        principals,
        principal_slots,
        vars,
        variable_slots,
        locals,
        local_slots,
        assertions,
        &mut elements,
        l,
        text,
        y,
        x,
        e,
    );
    match p {
        Prepared::Denied => Verdict::Denied,
        Prepared::Failed => Verdict::Failed,
        Prepared::List(n, known) => make_list(
            principals,
            principal_slots,
            vars,
            variable_slots,
            locals,
            local_slots,
            assertions,
            value,
            &elements,
            labels,
            l,
            text,
            y,
            x,
            e,
            n,
            known,
            way,
        ),
    }
}
