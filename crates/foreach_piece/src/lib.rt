// What foreach and filtereach leave in the place of one element, by the value that the expression has for it.
#![tactic(auto)]

ghost use Rattle.std.specs.Prelude.{◌≡◌, ◌≤◌, length, List};
ghost use Rattle.language.specs.Syntax.{Name};
ghost use Rattle.language.specs.State.{Element, Value, single};
ghost use Rattle.language.specs.Outcomes.{Outcome};
ghost use Rattle.language.specs.Values.{Session};
ghost use Rattle.values.specs.Encoding.{Holds, ValueText};
ghost use Rattle.evaluated.specs.declared.Answered.TheVariants as Answer;
ghost use Rattle.term_answer.specs.Telling.{Tells};
ghost use Rattle.foreach_piece.specs.declared.Way.TheVariants as WayIs;
ghost use Rattle.foreach_piece.specs.Ways.{comes_to, is_blank};
ghost use Rattle.foreach_piece.specs.Drafts.{Pieces, MadeOf, SomeElement, SomeAnswer, SomeValue};

use evaluated::Answered;

// Elements that are written in the first `len` bytes that were lent for them, one after the other, or as a list; and what they weigh as
// one. Of what weighs more than 8,192 only that is kept: the weight is then 8,193, and the bytes say nothing.
#[derive(Clone, Copy)]
pub struct Draft {
    pub len: usize,
    pub weight: usize,
}

// Denied: the sender may not read what is evaluated. No: there is no value, or none that may stand there.
#[derive(Clone, Copy)]
pub enum Made {
    Denied,
    No,
    Done(Draft),
}

// What is done with each element: foreach puts the value in its place, filtereach leaves it where the value is the empty string.
#[derive(Clone, Copy)]
pub enum Way {
    Replace,
    Filter,
}

// Whether a value is the empty string: no other value's text has three bytes.
fn is_blank(value: &[u8]) -> bool
    requires { ValueText value.now }
    ensures { (v : Value) → Holds v value.now → result ≡ is_blank v }
{
    value.len() == 3
}

// The value in the element's place. A list may not stand there.
fn replacing(out: &[u8], len: usize, weight: usize) -> Made
    requires { SomeValue out.now len weight }
    ensures { (s : Session) (xs : List Name) (o : Outcome Value) (a : Element) → Tells (Answer.Value len weight) s xs o out.now
        → MadeOf Pieces result s xs (comes_to WayIs.Replace a o) out.now }
{
    if lookup::list_read(&out[..len]) {
        return Made::No;
    }
    Made::Done(Draft {
        len,
        weight: weight + 1,
    })
}

// The element itself, or nothing.
fn keeping(out: &mut [u8], len: usize, weight: usize, element: &[u8]) -> Made
    requires { SomeValue out.old len weight × SomeElement element.now × (32768 ≤ length out.old) }
    ensures { (s : Session) (xs : List Name) (o : Outcome Value) (a : Element) → Tells (Answer.Value len weight) s xs o out.old
        → Holds (single a) element.now → MadeOf Pieces result s xs (comes_to WayIs.Filter a o) out.new }
{
    if !is_blank(&out[..len]) {
        return Made::Done(Draft { len: 0, weight: 0 });
    }
    let own = values::weigh(element);
    let end = value_text::copy_in(out, 0, element);
    Made::Done(Draft {
        len: end,
        weight: own + 1,
    })
}

// What an answer for the expression leaves of the element, at the front of `out`, where the answer's value stands.
pub fn settled(way: Way, element: &[u8], out: &mut [u8], r: Answered) -> Made
    requires { SomeAnswer r out.old × SomeElement element.now × (32768 ≤ length out.old) }
    ensures { (s : Session) (xs : List Name) (o : Outcome Value) (a : Element) → Tells r s xs o out.old
        → Holds (single a) element.now → MadeOf Pieces result s xs (comes_to way a o) out.new }
{
    match r {
        Answered::Denied => Made::Denied,
        Answered::Missing => Made::No,
        Answered::Heavy => Made::Done(Draft {
            len: 0,
            weight: 8193,
        }),
        Answered::Value { len, weight } => match way {
            Way::Replace => replacing(out, len, weight),
            Way::Filter => keeping(out, len, weight, element),
        },
    }
}
