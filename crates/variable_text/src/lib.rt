// Changes of the variables in one text, the shared ones' or the locals'. The session's weight after a change is known before a byte moves.
#![tactic(auto)]

ghost use Rattle.std.specs.Prelude.{◌≡◌, List, ◌++◌, ◌+◌, ◌≤◌, ◌<◌, T};
ghost use Rattle.std.proofs.Math.Option.{none, some};
ghost use Rattle.language.specs.Text.{all};
ghost use Rattle.language.specs.Syntax.{Name};
ghost use Rattle.language.specs.State.{Element, Value, list, Variable, value_in, put};
ghost use Rattle.language.specs.Identifiers.{is_name};
ghost use Rattle.language.specs.Weight.{limit, value_weight};
ghost use Rattle.language.specs.Valid.{valid_variable};
ghost use Rattle.store.specs.Held.{Variables};
ghost use Rattle.store.specs.Rows.{position};
ghost use Rattle.store.specs.Contents.{variable_at};
ghost use Rattle.edits.specs.Changes.{variable_names};
ghost use Rattle.variable_text.specs.Puts.{Lies, SomeLying, SomeNamed, SomeListed, SomeValid, Weighs, SomeWeighed, Extra, Becomes};

use contents::value_of;
use edits::add::add_variable;
use edits::change::{append_value, set_value};

// The text's new length, and the session's new weight.
#[derive(Clone, Copy)]
pub enum Put {
    Full,
    Done { len: usize, weight: usize },
}

// What the value of a variable weighs.
fn weight_of(text: &[u8], slots: &[u32], count: usize, number: usize) -> usize
    requires { SomeValid text.now count slots.now × (number < count) }
    ensures { (vs : List Variable) → Variables vs text.now count slots.now → T (all valid_variable vs) → result ≡ value_weight (variable_at vs number).value }
{
    let at = value_of(text, slots, count, number);
    let a = at.start;
    let b = at.end;
    values::weigh(&text[a..b])
}

// A variable gets another value, of the weight `weight`; the session weighs `total` before.
pub fn replace(
    buf: &mut [u8],
    len: usize,
    slots: &mut [u32],
    count: usize,
    number: usize,
    value: &[u8],
    weight: usize,
    total: usize,
) -> Put
    requires { SomeNamed buf.old len count slots.old total number × SomeWeighed value.now weight × (total ≤ limit) }
    ensures { (vs : List Variable) (x : Name) (v : Value) → Lies vs buf.old len count slots.old total
        → number ≡ position (variable_names vs) x → Weighs v value.now weight
        → Becomes vs (put x v vs) total result buf.new count slots.new }
{
    let old = weight_of(&buf[..len], slots, count, number);
    let after = total - old + weight;
    if 8192 < after {
        return Put::Full;
    }
    let n = set_value(buf, len, slots, count, number, value);
    Put::Done {
        len: n,
        weight: after,
    }
}

// A new variable, last.
pub fn add(
    buf: &mut [u8],
    len: usize,
    slots: &mut [u32],
    count: usize,
    name: &[u8],
    value: &[u8],
    weight: usize,
    total: usize,
) -> Put
    requires { SomeLying buf.old len count slots.old total × SomeWeighed value.now weight × T (is_name name.now) × (total ≤ 65536) }
    ensures { (vs : List Variable) (v : Value) → Lies vs buf.old len count slots.old total
        → value_in vs name.now ≡ none → Weighs v value.now weight
        → Becomes vs (put name.now v vs) total result buf.new (count + 1) slots.new }
{
    let after = total + 1 + name.len() + weight;
    if 8192 < after {
        return Put::Full;
    }
    let n = add_variable(buf, len, slots, count, name, value);
    Put::Done {
        len: n,
        weight: after,
    }
}

// A list gets more elements at its end: their text, and what they weigh.
pub fn extend(
    buf: &mut [u8],
    len: usize,
    slots: &mut [u32],
    count: usize,
    number: usize,
    more: &[u8],
    weight: usize,
    total: usize,
) -> Put
    requires { SomeListed buf.old len count slots.old total number more.now weight × (total ≤ limit) × (weight ≤ 65536) }
    ensures { (vs : List Variable) (x : Name) (es fs : List Element) → Lies vs buf.old len count slots.old total
        → number ≡ position (variable_names vs) x → value_in vs x ≡ some (list es) → Extra fs more.now weight
        → Becomes vs (put x (list (es ++ fs)) vs) total result buf.new count slots.new }
{
    let after = total + weight;
    if 8192 < after {
        return Put::Full;
    }
    let n = append_value(buf, len, slots, count, number, more);
    Put::Done {
        len: n,
        weight: after,
    }
}
