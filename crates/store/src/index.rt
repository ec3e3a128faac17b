// Records by name and by number. A slot is the hash of the record's name (15 bits) times 131,072 plus the place where the record starts
// (17 bits), so that a name is looked for among numbers, and bytes are compared only where the hashes are equal.
ghost use Rattle.std.specs.Prelude.{◌≡◌, List, ℕ, ◌+◌, ◌-◌, ◌/◌, ◌%◌, ◌≤◌, ◌<◌, length, get_or};
ghost use Rattle.language.specs.Text.{◌≟◌};
ghost use Rattle.store.specs.Held.{hash, places};
ghost use Rattle.text.specs.Parts.{part};
ghost use Rattle.store.specs.Rows.{Row, Rows, SomeRows, place, Placed};
ghost use Rattle.store.specs.Scans.{FirstMeant, HitMeant};

use text::Alphabet;

// Where a record stands: its number, and its text from `start` up to `end`.
#[derive(Clone, Copy)]
pub struct Found {
    pub number: usize,
    pub start: usize,
    pub end: usize,
}

// A record of a known number: its text from `start` up to `end`; its name from `start + 2` up to `mid`.
#[derive(Clone, Copy)]
pub struct Place {
    pub start: usize,
    pub mid: usize,
    pub end: usize,
}

// A name's hash.
pub fn hash(name: &[u8]) -> u32
    ensures { result ≡ hash name.now }
{
    let mut h = 0;
    for b in name {
        h = (h * 31 + u32::from(*b)) % 32768;
    }
    h
}

// Whether one of the slots from `from` up to `to` has the hash `p`. The loop has no exit, so that some slots are looked at together.
fn hits(slots: &[u32], from: usize, to: usize, p: u32) -> bool
    requires { (from ≤ to) × (to ≤ length slots.now) }
    ensures { HitMeant slots.now from to p result }
{
    let mut hit = false;
    for i in from..to {
        if slots[i] / 131072 == p {
            hit = true;
        }
    }
    hit
}

// The first of the slots from `from` up to `to` that has the hash `p`.
fn first_of(slots: &[u32], from: usize, to: usize, p: u32) -> Option<usize>
    requires { (from ≤ to) × (to ≤ length slots.now) }
    ensures { FirstMeant slots.now from to p result }
{
    for i in from..to {
        if slots[i] / 131072 == p {
            return Some(i);
        }
    }
    None
}

// The same as `first_of`, block by block, because most blocks have no such slot.
fn scan(slots: &[u32], from: usize, to: usize, p: u32) -> Option<usize>
    requires { (from ≤ to) × (to ≤ length slots.now) }
    ensures { FirstMeant slots.now from to p result }
{
    let mut i = from;
    while i < to {
        // 64 slots further, or at the last. Told apart by a branch, so that most blocks are gone over by a loop of a known length.
        let next = if to - i > 64 { i + 64 } else { to };
        if hits(slots, i, next, p) {
            return first_of(slots, i, next, p);
        }
        i = next;
    }
    None
}

// Where the record of a slot starts.
fn start_of(slots: &[u32], number: usize) -> usize
    requires { number < length slots.now }
    ensures { result ≡ get_or slots.now number 0 % places }
{
    (slots[number] % 131072) as usize
}

// The record of a number.
pub fn nth(text: &[u8], slots: &[u32], count: usize, number: usize) -> Place
    requires { SomeRows text.now count slots.now × (number < count) }
    ensures { (rows : List Row) → Rows rows text.now count slots.now → Placed rows number result }
{
    let start = start_of(slots, number);
    let mid = text::run_end(text, start + 2, Alphabet::Word);
    let next = number + 1;
    let end = if next < count {
        start_of(slots, next)
    } else {
        text.len()
    };
    Place { start, mid, end }
}

// Whether the bytes from `from` up to `to` are the name.
fn is_named(text: &[u8], from: usize, to: usize, name: &[u8]) -> bool
    requires { (from ≤ to) × (to ≤ length text.now) }
    ensures { result ≡ (part text.now from to ≟ name.now) }
{
    text::same_bytes(&text[from..to], name)
}

// The record of a name.
pub fn find(text: &[u8], slots: &[u32], count: usize, name: &[u8]) -> Option<Found>
    requires { SomeRows text.now count slots.now }
    ensures { (rows : List Row) → Rows rows text.now count slots.now → result ≡ place rows name.now }
{
    let p = hash(name);
    let mut i = 0;
    while let Some(k) = scan(slots, i, count, p) {
        let at = nth(text, slots, count, k);
        if is_named(text, at.start + 2, at.mid, name) {
            return Some(Found {
                number: k,
                start: at.start,
                end: at.end,
            });
        }
        i = k + 1;
    }
    None
}
