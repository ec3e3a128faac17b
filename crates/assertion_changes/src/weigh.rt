// What the names in an assertion weigh, and the assertion's number.
ghost use Rattle.std.specs.Prelude.{◌≡◌, List, ◌+◌, ◌≤◌, ◌<◌, length, take};
ghost use Rattle.language.specs.Weight.{name_weight};
ghost use Rattle.assertion.specs.Packed.{pack};
ghost use Rattle.store.specs.Rows.{Row, Rows, SomeRows, row_at};

use contents::principal_weight;

// The weight of the names of two principals, by their numbers.
pub fn pair(principals: &[u8], slots: &[u32], len: usize, count: usize, q: usize, p: usize) -> usize
    requires { (len ≤ length principals.now) × SomeRows (take len principals.now) count slots.now × (q < count) × (p < count) }
    ensures { (rows : List Row) → Rows rows (take len principals.now) count slots.now
        → result ≡ name_weight (row_at rows q).name + name_weight (row_at rows p).name }
{
    principal_weight(&principals[0..len], slots, count, q)
        + principal_weight(&principals[0..len], slots, count, p)
}

// The length of the name of a variable, by its number.
pub fn variable(vars: &[u8], slots: &[u32], len: usize, count: usize, number: usize) -> usize
    requires { (len ≤ length vars.now) × SomeRows (take len vars.now) count slots.now × (number < count) }
    ensures { (rows : List Row) → Rows rows (take len vars.now) count slots.now → result ≡ length (row_at rows number).name }
{
    let place = store::index::nth(&vars[0..len], slots, count, number);
    place.mid - (place.start + 2)
}

// An assertion's four numbers in one.
pub fn packed(variable: usize, from: usize, right: u16, to: usize) -> u64
    requires { (variable < 4096) × (from < 4096) × (right < 4) × (to < 4096) }
    ensures { result ≡ pack variable from right to }
{
    assertion::pack(variable, from, right, to)
}
