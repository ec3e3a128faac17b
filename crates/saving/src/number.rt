// What a number stands for: a record's name, a right's letter.
ghost use Rattle.std.specs.Prelude.{◌≡◌, List, [], ◌∷◌, ◌<◌};
ghost use Rattle.language.specs.Syntax.{Right};
ghost use Rattle.language.specs.Encode.{letter};
ghost use Rattle.store.specs.Rows.{Row, Rows, SomeRows, row_at};
ghost use Rattle.named_rights.specs.Numbers.{code};

use store::index::nth;

// The name of the record of a number.
pub fn name_of<'a>(text: &'a [u8], slots: &[u32], count: usize, number: usize) -> &'a [u8]
    requires { SomeRows text.now count slots.now × (number < count) }
    ensures { (rows : List Row) → Rows rows text.now count slots.now → result.now ≡ (row_at rows number).name }
{
    let place = nth(text, slots, count, number);
    let from = place.start + 2;
    let to = place.mid;
    &text[from..to]
}

// The letter of a right's number.
pub fn letter_of(right: u16) -> u8
    ensures { (r : Right) → right ≡ code r → letter r ≡ result ∷ [] }
{
    if right == assertion::READ {
        return b'r';
    }
    if right == assertion::WRITE {
        return b'w';
    }
    if right == assertion::APPEND {
        return b'a';
    }
    b'd'
}
