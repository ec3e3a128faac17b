// The fields of a record of the state text, each read from a place on, or shown not to stand there; and names entered, each once.
#![tactic(auto)]

ghost use Rattle.std.specs.Prelude.{◌≡◌, List, ◌+◌, ◌-◌, ◌≤◌, length, get_or};
ghost use Rattle.text.specs.Parts.{part};
ghost use Rattle.store.specs.Rows.{Row, Rows};
ghost use Rattle.record_fields.specs.Entering.{Entering, Entered};
ghost use Rattle.record_fields.specs.Sections.{Safe, StringMeant, FieldMeant, FieldsMeant};

use text::Alphabet;

// What a state weighs at most.
pub const LIMIT: usize = 8192;

// A record with a name: where the name ends, where the record ends, and what is weighed with it.
#[derive(Clone, Copy)]
pub struct Entry {
    pub name_end: usize,
    pub end: usize,
    pub weighed: usize,
}

// Records one after the other: where they end, how many, and what is weighed with them.
#[derive(Clone, Copy)]
pub struct Section {
    pub end: usize,
    pub count: usize,
    pub weighed: usize,
}

// A string that ends its line: where its record ends, and what is weighed with it.
pub fn string_at(text: &[u8], at: usize, w: usize) -> Option<(usize, usize)>
    requires { (at ≤ length text.now) × (w ≤ 16384) }
    ensures { StringMeant text.now at w result }
{
    let e = lines::run_cut(text, at, Alphabet::Text, b'\n')?;
    let size = e - at;
    if size > LIMIT || w + size > LIMIT {
        return None;
    }
    Some((e + 1, w + size))
}

// A field line.
fn field_at(text: &[u8], at: usize, w: usize) -> Option<Entry>
    requires { (get_or text.now at 0 ≡ 70) × (w ≤ 8193) }
    ensures { FieldMeant text.now at w result }
{
    if lines::byte_at(text, at + 1) != b'\t' {
        return None;
    }
    let name_end = lines::name_end(text, at + 2, b'\t')?;
    let (end, weighed) = string_at(text, name_end + 1, w + 1 + (name_end - (at + 2)))?;
    Some(Entry {
        name_end,
        end,
        weighed,
    })
}

// A name that starts at i + 2 and ends at m is entered as the n-th of the records that stand from `at` up to i, if it is new.
pub fn enter(text: &[u8], at: usize, i: usize, m: usize, slots: &mut [u32], n: usize) -> bool
    requires { Entering text.now at i m n slots.old }
    ensures { (rows : List Row) → Rows rows (part text.now at i) n slots.old
        → Entered rows (part text.now (i + 2) m) (i - at) n slots.old slots.new result }
{
    let from = i + 2;
    let None = store::index::find(&text[at..i], slots, n, &text[from..m]) else {
        return false;
    };
    slots[n] = store::index::hash(&text[from..m]) * 131072 + (i - at) as u32;
    true
}

// Field lines with different labels. The slots of the labels go to `slots`, to tell whether one is there twice.
pub fn fields(text: &[u8], at: usize, w: usize, slots: &mut [u32]) -> Option<Section>
    requires { Safe text.now at w slots.old }
    ensures { FieldsMeant text.now at w result }
{
    let mut i = at;
    let mut n = 0;
    let mut now = w;
    while lines::byte_at(text, i) == b'F' {
        let line = field_at(text, i, now)?;
        if !enter(text, at, i, line.name_end, slots, n) {
            return None;
        }
        n += 1;
        i = line.end;
        now = line.weighed;
    }
    if now > LIMIT {
        return None;
    }
    Some(Section {
        end: i,
        count: n,
        weighed: now,
    })
}
