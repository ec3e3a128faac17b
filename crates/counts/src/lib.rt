// A principal's count of completed programs, read from the text.
#![tactic(auto)]

ghost use Rattle.std.specs.Prelude.{◌≡◌, List, ◌<◌, T};
ghost use Rattle.language.specs.Text.{all};
ghost use Rattle.language.specs.State.{Principal};
ghost use Rattle.language.specs.Valid.{valid_principal};
ghost use Rattle.store.specs.Held.{Principals};
ghost use Rattle.counts.specs.Counted.{SomeCounted, Counted};

use contents::count_at;
use lines::number_at;

// A count, and the places where its digits start and end.
#[derive(Clone, Copy)]
pub struct Count {
    pub value: u64,
    pub start: usize,
    pub end: usize,
}

// The count of a principal, by its number.
pub fn count_of(text: &[u8], slots: &[u32], count: usize, number: usize) -> Count
    requires { SomeCounted text.now count slots.now × (number < count) }
    ensures { (ks : List Principal) → Principals ks text.now count slots.now → T (all valid_principal ks)
        → Counted ks text.now number result }
{
    let start = count_at(text, slots, count, number);
    let Some((value, end)) = number_at(text, start) else {
        return Count {
            value: 0,
            start,
            end: start,
        };
    };
    Count { value, start, end }
}
