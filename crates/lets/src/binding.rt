// The name of a `let` bound to the value of its first expression.
ghost use Rattle.std.specs.Prelude.{◌≡◌, ℕ, ◌≤◌, length};
ghost use Rattle.language.specs.State.{Value};
ghost use Rattle.language.specs.Values.{Session};
ghost use Rattle.language.specs.Weight.{value_weight};
ghost use Rattle.values.specs.Encoding.{Holds};
ghost use Rattle.lets.specs.Frames.{Frame};
ghost use Rattle.lets.specs.Reaching.{texts, Binds};
ghost use Rattle.lets.specs.Standing.{Pushed, SomePushed};

use crate::frames::{is_taken, large, name_of, small};

// A defined name cannot be bound, and names that live at once may weigh 8,192. Done: where the locals end then, how many there are, and what
// the names of `let` weigh.
#[derive(Clone, Copy)]
pub enum Bound {
    Defined,
    Heavy,
    Done(usize, usize, usize),
}

// Binds the name of the frame d, behind the locals where its `let` stands.
pub fn bind(
    shared: &[u8],
    slots: &[u32],
    count: usize,
    scope: &mut [u8],
    local_slots: &mut [u32],
    text: &[u8],
    heads: &[u16],
    lens: &[u32],
    counts: &[u16],
    bounds: &[u16],
    d: usize,
    value: &[u8],
    weight: usize,
) -> Bound
    requires { SomePushed text.now (texts shared.now slots.now count scope.old local_slots.old) heads.now lens.now counts.now bounds.now d value.now weight }
    ensures { (s : Session) (k : Frame) (v : Value) (base number : ℕ)
        → Pushed s k v text.now (texts shared.now slots.now count scope.old local_slots.old)
        heads.now lens.now counts.now bounds.now d value.now weight base number
        → Binds result s k v (texts shared.now slots.now count scope.new local_slots.new) base number }
{
    if is_taken(
        shared,
        slots,
        count,
        scope,
        local_slots,
        text,
        heads,
        lens,
        counts,
        d,
    ) {
        return Bound::Defined;
    }
    let x = name_of(text, heads, d);
    let a = x.start;
    let b = x.end;
    let bound = small(bounds, d) + 1 + (b - a) + weight;
    if 8192 < bound {
        return Bound::Heavy;
    }
    let n = small(counts, d);
    let len = large(lens, d);
    let end = edits::add::add_variable(scope, len, local_slots, n, &text[a..b], value);
    Bound::Done(end, n + 1, bound)
}
