// Bytes put in the place of others, and slots moved with them.
#![tactic(auto)]

ghost use Rattle.std.specs.Prelude.{◌≡◌, ℕ, ◌+◌, ◌-◌, ◌≤◌, ◌<◌, length, get_or};
ghost use Rattle.text.specs.Parts.{part};
ghost use Rattle.splice.specs.Splices.{over, spliced, shifted};

// Copies a text, or slots, over a part of others.
pub fn copy<T: Copy>(dst: &mut [T], at: usize, src: &[T])
    requires { at + length src.now ≤ length dst.old }
    ensures { dst.new ≡ over dst.old at src.now }
{
    for i in 0..src.len() {
        dst[at + i] = src[i];
    }
}

// How many bytes are moved at once: a move byte by byte would be slower, since its two places may overlap.
const BLOCK: usize = 256;

// Moves the bytes from `from` up to `len` down, so that they start at `to`: the first block first, so that each byte is read before
// another is written over it.
fn slide_down(buf: &mut [u8], from: usize, to: usize, len: usize)
    requires { (to ≤ from) × (from ≤ len) × (len ≤ length buf.old) }
    ensures { buf.new ≡ over buf.old to (part buf.old from len) }
{
    let mut block = [0u8; BLOCK];
    let gap = from - to;
    let mut i = from;
    while i < len {
        let n = BLOCK.min(len - i);
        let end = i + n;
        copy(&mut block, 0, &buf[i..end]);
        copy(buf, i - gap, &block[..n]);
        i = end;
    }
}

// Moves the bytes from `from` up to `len` up, so that they start at `to`: the last block first, for the same reason.
fn slide_up(buf: &mut [u8], from: usize, to: usize, len: usize)
    requires { (from ≤ to) × (from ≤ len) × (to + (len - from) ≤ length buf.old) }
    ensures { buf.new ≡ over buf.old to (part buf.old from len) }
{
    let mut block = [0u8; BLOCK];
    let gap = to - from;
    let mut i = len;
    while from < i {
        let n = BLOCK.min(i - from);
        let start = i - n;
        copy(&mut block, 0, &buf[start..i]);
        copy(buf, start + gap, &block[..n]);
        i = start;
    }
}

// Moves the bytes from `from` up to `len`, so that they start at `to`.
fn slide(buf: &mut [u8], from: usize, to: usize, len: usize)
    requires { (from ≤ len) × (len ≤ length buf.old) × (to + (len - from) ≤ length buf.old) }
    ensures { buf.new ≡ over buf.old to (part buf.old from len) }
{
    if from == len {
        return;
    }
    if to < from {
        slide_down(buf, from, to, len);
    } else if from < to {
        slide_up(buf, from, to, len);
    }
}

// Puts `src` in place of the bytes from `from` up to `to` of a text, the first `len` bytes of `buf`; the text's new length.
pub fn splice(buf: &mut [u8], len: usize, from: usize, to: usize, src: &[u8]) -> usize
    requires { (from ≤ to) × (to ≤ len) × (len ≤ length buf.old) × (from + length src.now + (len - to) ≤ length buf.old) }
    ensures size { result ≡ from + length src.now + (len - to) }
    ensures left { buf.new ≡ spliced buf.old len from to src.now }
{
    let at = from + src.len();
    slide(buf, to, at, len);
    copy(buf, from, src);
    at + (len - to)
}

// Slots from `from` up to `to` of records that moved: `new` up, `old` down. Nothing moved where the two are the same.
pub fn shift(slots: &mut [u32], from: usize, to: usize, old: u32, new: u32)
    requires { (from ≤ to) × (to ≤ length slots.old) × ((j : ℕ) → from ≤ j → j < to → (old ≤ get_or slots.old j 0) × (get_or slots.old j 0 - old + new < 4294967296)) }
    ensures { slots.new ≡ shifted slots.old from to old new }
{
    if old == new {
        return;
    }
    for slot in &mut slots[from..to] {
        *slot = *slot - old + new;
    }
}
