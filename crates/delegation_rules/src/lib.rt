// What a delegation names, who may send it, and which variables it is about.
#![tactic(auto)]

ghost use Rattle.std.specs.Prelude.{◌≡◌, ◌&&◌, not, List, [], ◌∷◌, map, ℕ, ◌≤◌, T, length, take};
ghost use Rattle.language.specs.Text.{Text, all};
ghost use Rattle.language.specs.Syntax.{Name, delegate, set_delegation, delete_delegation};
ghost use Rattle.language.specs.Syntax as Syntax;
ghost use Rattle.language.specs.State.{Store, admin};
ghost use Rattle.language.specs.Chains.{has};
ghost use Rattle.language.specs.Values.{Session, is_shared, is_principal};
ghost use Rattle.language.specs.Commands.{is_none, denied, delegable, targets};
ghost use Rattle.text.specs.Meaning.{part, Within};
ghost use Rattle.forms.specs.Forms.{right_meant, target_meant, TargetWithin};
ghost use Rattle.store.specs.Rows.{Row, Rows, SomeRows, row_names, position};
ghost use Rattle.named_rights.specs.Numbers.{code, variables};
ghost use Rattle.named_rights.specs.Numbers as Numbers;
ghost use Rattle.session.specs.Sessions.{Slices, slices, Running};
ghost use Rattle.delegation_rules.specs.Numbered.{Numbered, Counted};
ghost use Rattle.delegation_rules.specs.Asking.{aim_of, Few, Names, Runs, SomeRuns};

use assertion::{APPEND, DELEGATE, READ, WRITE};
use contents::number_of;
use forms::{Right, Target};
use session::Layout;
use text::Span;

// What a delegation is about: every variable on which the giver has delegate, or the one of a number.
#[derive(Clone, Copy)]
pub enum Aim {
    All,
    One(usize),
}

// The numbers of what a delegation names. A name that is missing has the number after the last.
#[derive(Clone, Copy)]
pub struct Ask {
    pub aim: Aim,
    pub giver: usize,
    pub taker: usize,
}

// What a target is about.
fn aim_of(vars: &[u8], slots: &[u32], len: usize, count: usize, text: &[u8], target: Target) -> Aim
    requires { (len ≤ length vars.now) × SomeRows (take len vars.now) count slots.now × TargetWithin text.now target }
    ensures { (l : List Row) → Rows l (take len vars.now) count slots.now → result ≡ aim_of (row_names l) (target_meant text.now target) }
{
    match target {
        Target::All => Aim::All,
        Target::Only(x) => {
            let a = x.start;
            let b = x.end;
            Aim::One(number_of(vars, slots, len, count, &text[a..b]))
        }
    }
}

// The numbers of what a command names.
pub fn asked(
    principals: &[u8],
    principal_slots: &[u32],
    vars: &[u8],
    variable_slots: &[u32],
    l: Layout,
    text: &[u8],
    target: Target,
    q: Span,
    p: Span,
) -> Ask
    requires principals_len_in_bounds { (l.principals_len ≤ length principals.now) × SomeRows (take l.principals_len principals.now) l.principals principal_slots.now }
    requires vars_len_in_bounds { (l.vars_len ≤ length vars.now) × SomeRows (take l.vars_len vars.now) l.vars variable_slots.now }
    requires target_within { TargetWithin text.now target × Within text.now q × Within text.now p }
    ensures { (s : Session) (locals : Text) (ms assertions : List ℕ)
        → Running s l (slices principals.now principal_slots.now vars.now variable_slots.now locals ms assertions)
        → Names s (target_meant text.now target) (part text.now q) (part text.now p) result }
{
    let principals_len = l.principals_len;
    let principal_count = l.principals;
    let a = q.start;
    let b = q.end;
    let giver = number_of(
        principals,
        principal_slots,
        principals_len,
        principal_count,
        &text[a..b],
    );
    let d = p.start;
    let e = p.end;
    let taker = number_of(
        principals,
        principal_slots,
        principals_len,
        principal_count,
        &text[d..e],
    );
    let aim = aim_of(vars, variable_slots, l.vars_len, l.vars, text, target);
    Ask { aim, giver, taker }
}

// Whether the sender is neither admin nor principal q.
fn neither(l: Layout, q: usize) -> bool
    ensures { (s : Session) (b : Slices) (from : Name) → Running s l b → q ≡ position (Numbers.principals_of s.store) from → result ≡ is_none s (admin ∷ from ∷ []) }
{
    if l.sender == 0 {
        return false;
    }
    l.sender != q
}

// Whether principal q and variable x exist, and q lacks delegate on x.
fn lacks(assertions: &[u64], l: Layout, x: usize, q: usize) -> bool
    requires { SomeRuns l assertions.now }
    ensures { (s : Session) (b : Slices) (y from : Name) → Runs s l b assertions.now → x ≡ position (variables s.store) y → q ≡ position (Numbers.principals_of s.store) from
        → result ≡ (is_principal s from && is_shared s y && not (has s.store delegate y from)) }
{
    if l.principals <= q {
        return false;
    }
    if l.vars <= x {
        return false;
    }
    !named_rights::may(assertions, l.asserted, l.principals, x, DELEGATE, q)
}

// Whether a set delegation is denied.
pub fn set_denied(assertions: &[u64], l: Layout, k: Ask) -> bool
    requires { SomeRuns l assertions.now }
    ensures { (s : Session) (b : Slices) (t : Syntax.Target) (from : Name) (of : Syntax.Right) (to : Name) → Runs s l b assertions.now → Names s t from to k
        → result ≡ denied s (set_delegation t from of to) }
{
    let q = k.giver;
    if neither(l, q) {
        return true;
    }
    let aim = k.aim;
    match aim {
        Aim::All => false,
        Aim::One(x) => lacks(assertions, l, x, q),
    }
}

// Whether a delete delegation is denied.
pub fn delete_denied(assertions: &[u64], l: Layout, k: Ask) -> bool
    requires { SomeRuns l assertions.now }
    ensures { (s : Session) (b : Slices) (t : Syntax.Target) (from : Name) (of : Syntax.Right) (to : Name) → Runs s l b assertions.now → Names s t from to k
        → result ≡ denied s (delete_delegation t from of to) }
{
    let q = k.giver;
    let aim = k.aim;
    match aim {
        Aim::All => neither(l, q),
        Aim::One(x) => {
            if l.sender == k.taker {
                return false;
            }
            if neither(l, q) {
                return true;
            }
            if l.sender == 0 {
                return false;
            }
            lacks(assertions, l, x, q)
        }
    }
}

// Whether something that a delegation names is missing.
pub fn missing(l: Layout, k: Ask) -> bool
    ensures { (s : Session) (b : Slices) (t : Syntax.Target) (from to : Name) → Running s l b → Names s t from to k
        → result ≡ not (is_principal s to && is_principal s from && all (is_shared s) (targets s.store t from)) }
{
    if l.principals <= k.taker {
        return true;
    }
    if l.principals <= k.giver {
        return true;
    }
    let aim = k.aim;
    match aim {
        Aim::All => false,
        Aim::One(x) => l.vars <= x,
    }
}

// The numbers of the shared variables on which principal q has delegate, in their order, at the start of `targets`; how many there are.
pub fn collect(
    assertions: &[u64],
    asserted: usize,
    principals: usize,
    vars: usize,
    q: usize,
    targets: &mut [u32],
) -> usize
    requires { (asserted ≤ length assertions.now) × (asserted ≤ 2048) × (principals ≤ 1024) × (vars ≤ 4096) × (4096 ≤ length targets.old) }
    ensures few { result ≤ vars }
    ensures are { (s : Store) (name : Name) → Counted s assertions.now asserted principals vars → Numbered s name q
        → take result targets.new ≡ map (position (variables s)) (delegable s name) }
{
    let mut n = 0;
    for k in 0..vars {
        if named_rights::may(assertions, asserted, principals, k, DELEGATE, q) {
            targets[n] = k as u32;
            n += 1;
        }
    }
    n
}

// The numbers of the variables that a delegation is about, at the start of `chosen`; how many there are.
pub fn choose(assertions: &[u64], l: Layout, k: Ask, chosen: &mut [u32]) -> usize
    requires { SomeRuns l assertions.now × (4096 ≤ length chosen.old) × Few k.aim }
    ensures within { result ≤ 4096 }
    ensures are { (s : Session) (b : Slices) (t : Syntax.Target) (from to : Name) → Runs s l b assertions.now → Names s t from to k → T (is_principal s from)
        → take result chosen.new ≡ map (position (variables s.store)) (targets s.store t from) }
{
    let aim = k.aim;
    match aim {
        Aim::All => collect(
            assertions,
            l.asserted,
            l.principals,
            l.vars,
            k.giver,
            chosen,
        ),
        Aim::One(x) => {
            chosen[0] = x as u32;
            1
        }
    }
}

// The number of a right.
pub fn right_code(right: Right) -> u16
    ensures { result ≡ code (right_meant right) }
{
    match right {
        Right::Read => READ,
        Right::Write => WRITE,
        Right::Append => APPEND,
        Right::Delegate => DELEGATE,
    }
}
