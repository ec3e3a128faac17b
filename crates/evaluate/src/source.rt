// Where the string stands that an operand is: in the value of its name, or in the program's text.
ghost use Rattle.std.specs.Prelude.{◌≡◌};
ghost use Rattle.language.specs.Values.{Session, operand_value};
ghost use Rattle.syntax.specs.Values.{operand_meant, OperandWithin};
ghost use Rattle.values.specs.Answers.{text_at, Placed};
ghost use Rattle.evaluated.specs.Results.{string_in};
ghost use Rattle.scopes.specs.Scopes.{Scope, SomeScope, SourceOf, SomeSource};

use syntax::Operand;
use text::Span;

// What an operand is looked for in.
pub fn source<'a>(
    shared: &'a [u8],
    slots: &[u32],
    count: usize,
    locals: &'a [u8],
    lslots: &[u32],
    lcount: usize,
    text: &'a [u8],
    v: Operand,
) -> &'a [u8]
    requires { SomeScope shared.now slots.now count locals.now lslots.now lcount × OperandWithin text.now v }
    ensures { (s : Session) → Scope s shared.now slots.now count locals.now lslots.now lcount
        → SourceOf s text.now v result.now }
{
    match v {
        Operand::Name(x) => {
            let a = x.start;
            let b = x.end;
            contents::read(shared, slots, count, locals, lslots, lcount, &text[a..b])
        }
        Operand::Field(x, _) => {
            let a = x.start;
            let b = x.end;
            contents::read(shared, slots, count, locals, lslots, lcount, &text[a..b])
        }
        Operand::Quoted(_) => text,
    }
}

// The string that an operand is, in what it is looked for in.
pub fn string_in(source: &[u8], text: &[u8], v: Operand) -> Option<Span>
    requires { SomeSource text.now v source.now × OperandWithin text.now v }
    ensures meant { (s : Session) → SourceOf s text.now v source.now
        → text_at source.now result ≡ string_in (operand_value s (operand_meant text.now v)) }
    ensures placed { Placed source.now result }
{
    match v {
        Operand::Name(_) => crate::operand::string_of(source),
        Operand::Field(_, y) => {
            let a = y.start;
            let b = y.end;
            crate::operand::field_of(source, &text[a..b])
        }
        Operand::Quoted(q) => Some(q),
    }
}
