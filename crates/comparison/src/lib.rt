// Whether two records kept as text are equal, in whatever order their fields are written (document 02, M-106).
#![tactic(auto)]

ghost use Rattle.std.specs.Prelude.{◌≡◌, true, List};
ghost use Rattle.language.specs.Text.{any};
ghost use Rattle.language.specs.State.{Field};
ghost use Rattle.language.specs.Functions.{same_field, holds_all, same_fields};
ghost use Rattle.comparison.specs.Records.{HoldsRecord, RecordText, LineOf, SomeLine, StandsAt};

mod order;

use text::same_bytes;
use values::{field_ends, field_in};

// Whether the record has a field of that label and that text.
fn holds_field(first: &[u8], label: &[u8], text: &[u8]) -> bool
    requires { RecordText first.now }
    ensures { (fs : List Field) → HoldsRecord fs first.now
        → result ≡ any (same_field (record { label = label.entry.now; text = text.now })) fs }
{
    match field_in(first, label) {
        Some(s) => same_bytes(&first[s.start..s.end], text),
        None => false,
    }
}

// Whether the line stands at a place where a line starts.
fn stands(text: &[u8], at: usize, line: &[u8]) -> bool
    ensures { result ≡ true → StandsAt text.now at line.now }
{
    if at == 0 || at > text.len() || text.len() - at < line.len() {
        return false;
    }
    if text[at - 1] != b'\n' {
        return false;
    }
    same_bytes(&text[at..at + line.len()], line)
}

// Whether the record has the field of that line. It is looked for where it should be, and then everywhere.
fn holds_line(first: &[u8], places: &[u16], line: &[u8]) -> bool
    requires { RecordText first.now × SomeLine line.now }
    ensures { (fs : List Field) (g : Field) → HoldsRecord fs first.now → LineOf g line.now → result ≡ any (same_field g) fs }
{
    if let Some(place) = order::guess(first, places, line) {
        if stands(first, place, line) {
            return true;
        }
    }
    let ends = field_ends(line, 0);
    holds_field(
        first,
        &line[2..ends.label],
        &line[ends.label + 1..ends.text],
    )
}

// Whether the first record has every field of the second. The places are those of the first one's lines.
fn holds_lines(first: &[u8], places: &[u16], second: &[u8]) -> bool
    requires { RecordText first.now × RecordText second.now }
    ensures { (fs gs : List Field) → HoldsRecord fs first.now → HoldsRecord gs second.now → result ≡ holds_all fs gs }
{
    let mut at = 2;
    while at < second.len() {
        let ends = field_ends(second, at);
        let next = ends.text + 1;
        if !holds_line(first, places, &second[at..next]) {
            return false;
        }
        at = next;
    }
    true
}

// Whether the first record has every field of the second.
fn holds_all(first: &[u8], second: &[u8]) -> bool
    requires { RecordText first.now × RecordText second.now }
    ensures { (fs gs : List Field) → HoldsRecord fs first.now → HoldsRecord gs second.now → result ≡ holds_all fs gs }
{
    let mut places = [0; 4096];
    let places = order::lines_of(first, &mut places);
    holds_lines(first, places, second)
}

// Whether two records have the same labels with the same texts, in whatever order. The same fields make up texts of the same length, and
// since no label is there twice, one way round is enough where the lengths are the same.
pub fn same_record(first: &[u8], second: &[u8]) -> bool
    requires { RecordText first.now × RecordText second.now }
    ensures { (fs gs : List Field) → HoldsRecord fs first.now → HoldsRecord gs second.now → result ≡ same_fields fs gs }
{
    if first.len() != second.len() {
        return false;
    }
    if same_bytes(first, second) {
        return true;
    }
    holds_all(first, second)
}
