// What the maker of a shared variable is granted: admin delegates all four rights on it to the sender.
ghost use Rattle.std.specs.Prelude.{◌≡◌, List, ◌++◌, ◌+◌, ◌≤◌, ◌<◌, T, length, take};
ghost use Rattle.language.specs.Syntax.{Name};
ghost use Rattle.language.specs.State.{Principal};
ghost use Rattle.language.specs.Valid.{valid_order};
ghost use Rattle.store.specs.Held.{Principals};
ghost use Rattle.store.specs.Rows.{SomeRows, position};
ghost use Rattle.edits.specs.Changes.{principal_names};
ghost use Rattle.assertion.specs.Packed.{pack};
ghost use Rattle.assignment.specs.Grants.{grant_weight, grant_numbers};

use assertion::{APPEND, DELEGATE, READ, WRITE};
use contents::principal_weight;

// What the assertions weigh that the sender is granted on a new variable, whose name has `len` bytes. Admin needs none.
pub fn grant_weight(
    principals: &[u8],
    slots: &[u32],
    count: usize,
    sender: usize,
    len: usize,
) -> usize
    requires { SomeRows principals.now count slots.now × (sender < count) × (len ≤ 255) }
    ensures small { result ≤ 2048 }
    ensures weighs { (ks : List Principal) (p : Name) → Principals ks principals.now count slots.now → T (valid_order ks)
        → sender ≡ position (principal_names ks) p → result ≡ grant_weight len p }
{
    if sender == 0 {
        return 0;
    }
    4 * (len + 2 + principal_weight(principals, slots, count, sender))
}

// Admin's assertion to a principal, as a number.
fn granted(variable: usize, right: u16, to: usize) -> u64
    requires { (variable < 4096) × (right < 4) × (to < 4096) }
    ensures { result ≡ pack variable 0 right to }
{
    assertion::pack(variable, 0, right, to)
}

// Enters what the sender is granted on the new variable of that number. None of it stands, since the variable is new.
pub fn grant(assertions: &mut [u64], n: usize, variable: usize, sender: usize) -> usize
    requires { (n ≤ length assertions.old) × (0 < sender → n + 4 ≤ length assertions.old) × (variable < 4096) × (sender < 4096) }
    ensures { (result ≤ length assertions.old) × (take result assertions.new ≡ take n assertions.old ++ grant_numbers variable sender) }
{
    if sender == 0 {
        return n;
    }
    let second = n + 1;
    let third = n + 2;
    let fourth = n + 3;
    assertions[n] = granted(variable, READ, sender);
    assertions[second] = granted(variable, WRITE, sender);
    assertions[third] = granted(variable, APPEND, sender);
    assertions[fourth] = granted(variable, DELEGATE, sender);
    n + 4
}
