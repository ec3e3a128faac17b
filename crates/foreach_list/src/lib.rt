// The list that foreach and filtereach make, element by element.
#![tactic(auto)]

ghost use Rattle.std.specs.Prelude.{◌≡◌, List, [], ◌++◌, ◌≤◌, length};
ghost use Rattle.language.specs.Syntax as Syntax;
ghost use Rattle.language.specs.Syntax.{Name};
ghost use Rattle.language.specs.State.{Element, list};
ghost use Rattle.language.specs.Outcomes.{Outcome, gives};
ghost use Rattle.language.specs.Values.{Session};
ghost use Rattle.language.specs.Commands.{names_for_each};
ghost use Rattle.text.specs.Meaning.{part};
ghost use Rattle.values.specs.Encoding.{Holds};
ghost use Rattle.evaluate.specs.Drafts.{Lent};
ghost use Rattle.lets.specs.Reaching.{texts, stack};
ghost use Rattle.foreach_piece.specs.Ways.{made, together, throughout};
ghost use Rattle.foreach_piece.specs.Drafts.{Pieces, AsList, Drafted, SomeDraft, MadeOf};
ghost use Rattle.foreach_element.specs.Turning.{Turning, SomeTurning, Room};
ghost use Rattle.foreach_list.specs.Lists.{SomeList, SomeMade, decided};

use foreach_element::turn;
use foreach_piece::{Draft, Made, Way};
use permits::Known;
use syntax::Expr;
use text::Span;

// A list without elements.
fn start(out: &mut [u8]) -> Draft
    requires { 32768 ≤ length out.old }
    ensures { Drafted AsList (gives []) out.new result }
{
    let len = value_text::put_list(out, 0);
    Draft { len, weight: 0 }
}

// Adds elements to the list, which is written as long as it is not too heavy.
fn put(out: &mut [u8], d: Draft, value: &[u8], more: Draft) -> Draft
    requires { SomeDraft AsList out.old d × SomeDraft Pieces value.now more × (32768 ≤ length out.old) }
    ensures { (o p : Outcome (List Element)) → Drafted AsList o out.old d → Drafted Pieces p value.now more
        → Drafted AsList (together o p) out.new result }
{
    let weight = d.weight + more.weight;
    if 8192 < weight {
        return Draft {
            len: 0,
            weight: 8193,
        };
    }
    let n = more.len;
    let len = value_text::copy_in(out, d.len, &value[..n]);
    Draft { len, weight }
}

// What has become of the elements so far and of one more. Nothing is written after one that failed.
fn join(out: &mut [u8], so_far: Made, value: &[u8], one: Made) -> Made
    requires { SomeMade AsList out.old so_far × SomeMade Pieces value.now one × (32768 ≤ length out.old) }
    ensures { (s : Session) (xs ys : List Name) (o p : Outcome (List Element)) → MadeOf AsList so_far s xs o out.old → MadeOf Pieces one s ys p value.now
        → MadeOf AsList result s (xs ++ ys) (together o p) out.new }
{
    match so_far {
        Made::Denied => Made::Denied,
        Made::No => match one {
            Made::Denied => Made::Denied,
            Made::No => Made::No,
            Made::Done(_) => Made::No,
        },
        Made::Done(d) => match one {
            Made::Denied => Made::Denied,
            Made::No => Made::No,
            Made::Done(more) => Made::Done(put(out, d, value, more)),
        },
    }
}

// Whether nothing that follows changes the answer: what is denied stays so, and what failed, where every term may be read.
fn is_over(m: Made, known: Known) -> bool
    ensures { result ≡ decided m known }
{
    match m {
        Made::Denied => true,
        Made::No => match known {
            Known::All => true,
            Known::Until(_) => false,
            Known::Nothing => false,
        },
        Made::Done(_) => false,
    }
}

// Tries the elements of the list one after the other; the new list is written from the start of `out` on.
pub fn make_all<'a>(
    shared: &'a [u8],
    slots: &[u32],
    count: usize,
    scope: &mut [u8],
    len: usize,
    local_slots: &mut [u32],
    number: usize,
    assertions: &[u64],
    n: usize,
    principals: usize,
    sender: usize,
    text: &'a [u8],
    y: Span,
    e: Expr,
    known: Known,
    way: Way,
    elements: &[u8],
    heads: &mut [u16],
    lens: &mut [u32],
    counts: &mut [u16],
    bounds: &mut [u16],
    value: &mut [u8],
    out: &mut [u8],
    labels: &mut [u32],
) -> Made
    requires some_turning { SomeTurning text.now (texts shared.now slots.now count scope.old local_slots.old) len number y e assertions.now n principals sender known }
    requires room { Room e (texts shared.now slots.now count scope.old local_slots.old) (stack heads.old lens.old counts.old bounds.old) number }
    requires some_list { SomeList elements.now × Lent value.old labels.old × (32768 ≤ length out.old) }
    ensures { (s : Session) (x : Syntax.Expr) (es : List Element)
        → Turning s x text.now (texts shared.now slots.now count scope.old local_slots.old) len number y e assertions.now n principals sender known
        → Holds (list es) elements.now
        → MadeOf AsList result s (names_for_each s (part text.now y) x es) (throughout (made way s (part text.now y) x) es) out.new
        × Turning s x text.now (texts shared.now slots.now count scope.new local_slots.new) len number y e assertions.now n principals sender known }
{
    let mut at = values::first_element(elements);
    let mut so_far = Made::Done(start(out));
    while let Some(s) = values::next_element(elements, at) {
        let one = turn(
            shared,
            slots,
            count,
            scope,
            len,
            local_slots,
            number,
            assertions,
            n,
            principals,
            sender,
            text,
            y,
            e,
            known,
            way,
            &elements[s.start..s.end],
            heads,
            lens,
            counts,
            bounds,
            value,
            labels,
        );
        so_far = join(out, so_far, value, one);
        if is_over(so_far, known) {
            return so_far;
        }
        at = s.end;
    }
    so_far
}
