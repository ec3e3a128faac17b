// What becomes of a value that is too heavy: FULL, unless a `let` around it has a name that is defined, which is FAILED.
ghost use Rattle.std.specs.Prelude.{List};
ghost use Rattle.language.specs.Values.{Session};
ghost use Rattle.lets.specs.Frames.{Frame};
ghost use Rattle.lets.specs.Reaching.{texts, Sinks};
ghost use Rattle.lets.specs.Standing.{AllStanding, SomeAllStanding};

use crate::frames::is_taken;
use evaluated::Answered;

// The frames are looked at from the innermost on.
pub fn sink<'a>(
    shared: &'a [u8],
    slots: &[u32],
    count: usize,
    scope: &'a [u8],
    local_slots: &[u32],
    text: &[u8],
    heads: &[u16],
    lens: &[u32],
    counts: &[u16],
    depth: usize,
) -> Answered
    requires { SomeAllStanding text.now (texts shared.now slots.now count scope.now local_slots.now) heads.now lens.now counts.now depth }
    ensures { (s : Session) (frames : List Frame)
        → AllStanding s frames text.now (texts shared.now slots.now count scope.now local_slots.now)
        heads.now lens.now counts.now depth → Sinks result s frames }
{
    let mut d = depth;
    while 0 < d {
        d -= 1;
        if is_taken(
            shared,
            slots,
            count,
            scope,
            local_slots,
            text,
            heads,
            lens,
            counts,
            d,
        ) {
            return Answered::Missing;
        }
    }
    Answered::Heavy
}
