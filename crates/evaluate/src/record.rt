// The value of a record: each of its fields a string, no label twice. A record that has no value is found out before one that is too
// heavy, so all fields are looked at.
ghost use Rattle.std.specs.Prelude.{◌≡◌, List, ℕ, ◌+◌, ◌≤◌, ◌<◌, T, length};
ghost use Rattle.std.proofs.Math.Option.{some};
ghost use Rattle.language.specs.Text.{Text};
ghost use Rattle.language.specs.Tokens.{Token};
ghost use Rattle.language.specs.Syntax.{Binding};
ghost use Rattle.language.specs.Syntax as Syntax;
ghost use Rattle.language.specs.Programs.{longest};
ghost use Rattle.language.specs.State.{Field, single, fields};
ghost use Rattle.language.specs.Values.{Session, operand_value};
ghost use Rattle.language.specs.Expressions.{term_value};
ghost use Rattle.language.proofs.Parsing.ValidPrograms.{valid_operand};
ghost use Rattle.text.specs.Meaning.{part, Within};
ghost use Rattle.syntax.specs.Values.{operand_meant, OperandWithin, record_at, SomeRecord};
ghost use Rattle.scopes.specs.Scopes.{Scope, SomeScope};
ghost use Rattle.evaluated.specs.Weighed.{by_weight};
ghost use Rattle.evaluated.specs.Results.{Valued, string_in};
ghost use Rattle.evaluate.specs.Drafts.{Drafted, SomeDraft, Lent, Extends, spelling};

use crate::draft::Draft;
use crate::source::{source, string_in};
use evaluated::Evaluated;
use syntax::{Operand, read_field};
use text::Span;
use tokens::scanner::Scanner;

// Adds the field of a program's label and operand.
fn add_field<'a>(
    shared: &'a [u8],
    slots: &[u32],
    count: usize,
    locals: &'a [u8],
    lslots: &[u32],
    lcount: usize,
    text: &'a [u8],
    x: Span,
    v: Operand,
    out: &mut [u8],
    labels: &mut [u32],
    d: Draft,
) -> Option<Draft>
    requires some_scope { SomeScope shared.now slots.now count locals.now lslots.now lcount }
    requires within { Within text.now x × OperandWithin text.now v × T (valid_operand (operand_meant text.now v)) × (length text.now ≤ longest) }
    requires lent { Lent out.old labels.old × SomeDraft out.old labels.old d (part text.now x) }
    ensures { (s : Session) (fs : List Field) → Scope s shared.now slots.now count locals.now lslots.now lcount
        → Drafted fs out.old labels.old d → spelling fs + length (part text.now x) + 3 ≤ longest
        → Extends fs (part text.now x) (string_in (operand_value s (operand_meant text.now v))) result out.new labels.new }
{
    let a = x.start;
    let b = x.end;
    let s = source(shared, slots, count, locals, lslots, lcount, text, v);
    let found = string_in(s, text, v);
    crate::draft::add_found(out, labels, d, &text[a..b], s, found)
}

// What a record is whose fields are all written.
fn finished(d: Draft) -> Evaluated
    ensures { (fs : List Field) (out : Text) (slots : List ℕ) → Drafted fs out slots d → 0 < length fs → Valued result (by_weight (some (single (fields fs)))) out }
{
    let weight = d.weight;
    if 8192 < weight {
        return Evaluated::Heavy;
    }
    Evaluated::Value { len: d.end, weight }
}

// Writes the value of the record whose fields stand from `at` on.
pub fn put_fields<'a>(
    shared: &'a [u8],
    slots: &[u32],
    count: usize,
    locals: &'a [u8],
    lslots: &[u32],
    lcount: usize,
    text: &'a [u8],
    at: usize,
    out: &mut [u8],
    labels: &mut [u32],
) -> Evaluated
    requires some_scope { SomeScope shared.now slots.now count locals.now lslots.now lcount }
    requires some_record { SomeRecord text.now at × (length text.now ≤ longest) }
    requires lent { Lent out.old labels.old }
    ensures { (s : Session) (bs : List Binding) (us : List Token) → Scope s shared.now slots.now count locals.now lslots.now lcount
        → record_at text.now at ≡ some (bs, us) → Valued result (term_value s (Syntax.fields bs)) out.new }
{
    let mut d = crate::draft::start(out, labels);
    let mut scanner = Scanner { text, at };
    while let Some(field) = read_field(&mut scanner) {
        let added = add_field(
            shared,
            slots,
            count,
            locals,
            lslots,
            lcount,
            text,
            field.label,
            field.value,
            out,
            labels,
            d,
        );
        let Some(next) = added else {
            return Evaluated::Missing;
        };
        if !field.more {
            return finished(next);
        }
        d = next;
    }
    Evaluated::Missing
}
