// The lines that a program prints: JSON from a value's text, and statuses.
ghost use Rattle.std.specs.Prelude.{List, ◌+◌, ◌≤◌, length};
ghost use Rattle.language.specs.Text.{Text, joined};
ghost use Rattle.language.specs.State as S;
ghost use Rattle.language.specs.State.{Field, Element};
ghost use Rattle.language.specs.Encode.{field_text, element_text};
ghost use Rattle.language.specs.Output as O;
ghost use Rattle.language.specs.Output.{quote, field_json, element_json, value_json};
ghost use Rattle.values.specs.Encoding.{Holds};
ghost use Rattle.values.specs.Places.{FieldAt, FieldsAt, ElementAt, Elements};
ghost use Rattle.value_text.specs.Writing.{Written};
ghost use Rattle.render.specs.Json.{linked, Renders, FieldRoom, FieldsRoom, ElementRoom, ElementsRoom, JsonRoom};
ghost use Rattle.render.specs.Lines.{status_line};

use text::until;
use value_text::{copy_in, put_byte};
use values::field_ends;

// How far a text was read, and how far the output is written.
#[derive(Clone, Copy)]
pub struct Moved {
    pub read: usize,
    pub wrote: usize,
}

fn put_quoted(out: &mut [u8], at: usize, text: &[u8]) -> usize
    requires { at + length text.now + 2 ≤ length out.old }
    ensures { Written out.old at (quote text.now) result out.new }
{
    let a = put_byte(out, at, b'"');
    let b = copy_in(out, a, text);
    put_byte(out, b, b'"')
}

// The field whose line starts at `at`.
fn field_json(text: &[u8], at: usize, out: &mut [u8], o: usize) -> Moved
    requires { FieldRoom text.now at out.old o }
    ensures { (f : Field) (rest : Text) → FieldAt text.now at f rest
        → Renders at (length (field_text f)) out.old o (field_json f) result out.new }
{
    let ends = field_ends(text, at);
    let a = put_quoted(out, o, &text[at + 2..ends.label]);
    let b = put_byte(out, a, b':');
    let c = put_quoted(out, b, &text[ends.label + 1..ends.text]);
    Moved {
        read: ends.text + 1,
        wrote: c,
    }
}

// The fields whose lines start at `at`, the first after a brace and the others after a comma.
fn fields_json(text: &[u8], at: usize, out: &mut [u8], o: usize) -> Moved
    requires { FieldsRoom text.now at out.old o }
    ensures { (fs : List Field) (rest : Text) → FieldsAt text.now at fs rest
        → Renders at (length (joined field_text fs)) out.old o (linked field_json 123 fs) result out.new }
{
    let mut sep = b'{';
    let mut moved = Moved { read: at, wrote: o };
    while moved.read < text.len() && text[moved.read] == b'F' {
        let a = put_byte(out, moved.wrote, sep);
        moved = field_json(text, moved.read, out, a);
        sep = b',';
    }
    moved
}

// The element whose first line starts at `at`.
fn element_json(text: &[u8], at: usize, out: &mut [u8], o: usize) -> Moved
    requires { ElementRoom text.now at out.old o }
    ensures { (e : Element) (rest : Text) → ElementAt text.now at e rest
        → Renders at (length (element_text e)) out.old o (element_json e) result out.new }
{
    if text[at] == b'S' {
        let end = until(text, at + 2, b'\n');
        let wrote = put_quoted(out, o, &text[at + 2..end]);
        return Moved {
            read: end + 1,
            wrote,
        };
    }
    let m = fields_json(text, at + 2, out, o);
    let wrote = put_byte(out, m.wrote, b'}');
    Moved {
        read: m.read,
        wrote,
    }
}

// The elements from `at` to the end of the text, the first after a bracket and the others after a comma.
fn elements_json(text: &[u8], at: usize, out: &mut [u8], o: usize) -> usize
    requires { ElementsRoom text.now at out.old o }
    ensures { (es : List Element) → Elements text.now at es
        → Written out.old o (linked element_json 91 es) result out.new }
{
    let mut before = b'[';
    let mut moved = Moved { read: at, wrote: o };
    while moved.read < text.len() {
        let a = put_byte(out, moved.wrote, before);
        moved = element_json(text, moved.read, out, a);
        before = b',';
    }
    moved.wrote
}

// A value's JSON, from `at` on; records in the order written.
fn json(value: &[u8], out: &mut [u8], at: usize) -> usize
    requires { JsonRoom value.now out.old at 0 }
    ensures { (v : S.Value) → Holds v value.now → Written out.old at (value_json v) result out.new }
{
    if value[0] != b'L' {
        return element_json(value, 0, out, at).wrote;
    }
    if value.len() == 2 {
        return copy_in(out, at, b"[]");
    }
    let p = elements_json(value, 2, out, at);
    put_byte(out, p, b']')
}

// The line of a command's status, or of a refusal.
pub fn status(out: &mut [u8], at: usize, word: &[u8]) -> usize
    requires { at + length word.now + 14 ≤ length out.old }
    ensures { Written out.old at (status_line word.now) result out.new }
{
    let a = copy_in(out, at, b"{\"status\":\"");
    let b = copy_in(out, a, word);
    copy_in(out, b, b"\"}\n")
}

// The line of a value that a program returns.
pub fn returning(value: &[u8], out: &mut [u8], at: usize) -> usize
    requires { JsonRoom value.now out.old at 33 }
    ensures { (v : S.Value) → Holds v value.now → Written out.old at (O.returning v) result out.new }
{
    let a = copy_in(out, at, b"{\"status\":\"RETURNING\",\"output\":");
    let b = json(value, out, a);
    copy_in(out, b, b"}\n")
}
