// The sheet of a shared variable, on a state that was checked.
ghost use Rattle.std.specs.Prelude.{◌≡◌, map, ◌≤◌, ◌<◌, T, length, take};
ghost use Rattle.language.specs.Syntax.{Name, Right};
ghost use Rattle.language.specs.State.{Store};
ghost use Rattle.language.specs.Valid.{valid_store};
ghost use Rattle.language.specs.Chains.{chain_length};
ghost use Rattle.language.specs.Sheet.{sheet_text};
ghost use Rattle.language.specs.Calls.{sheet_on};
ghost use Rattle.named_rights.specs.Numbers.{principals_of, Standing, AsksAll, length_marked};
ghost use Rattle.validate.specs.Checked.{Understood};
ghost use Rattle.answers.specs.Answers.{replied};
ghost use Rattle.sheet.specs.Listing.{Few, SomeSheet, SheetTables, Printed};

use answers::Answer;
use assertion::{APPEND, DELEGATE, READ, WRITE};
use sheet_page::put_sheet;
use state_lines::zero_rest;
use store::index::find;
use validate::Parts;

// How long everyone's shortest chain for a right is, in the first `count` marks.
fn mark(assertions: &[u64], n: usize, number: usize, right: u16, count: usize, marks: &mut [u16])
    requires { Few count n number assertions.now × (length marks.old ≡ 1024) }
    ensures { (s : Store) (r : Right) (x : Name) → T (valid_store s) → Standing s n assertions.now → AsksAll s r x count number right
        → map length_marked (take count marks.new) ≡ map (chain_length s r x) (principals_of s) }
{
    named_rights::lengths(assertions, n, number, right, &mut marks[..count]);
}

// A line for each principal, then zeros. How many bytes the lines have.
fn print(
    names: &[u8],
    slots: &[u32],
    count: usize,
    assertions: &[u64],
    n: usize,
    number: usize,
    output: &mut [u8],
) -> usize
    requires { SomeSheet names.now slots.now count n number assertions.now (length output.old) }
    ensures { (s : Store) (x : Name) → SheetTables s x names.now slots.now count n number assertions.now
        → Printed (sheet_text s x) result output.new }
{
    let mut reads = [0u16; 1024];
    let mut writes = [0u16; 1024];
    let mut appends = [0u16; 1024];
    let mut delegates = [0u16; 1024];
    mark(assertions, n, number, READ, count, &mut reads);
    mark(assertions, n, number, WRITE, count, &mut writes);
    mark(assertions, n, number, APPEND, count, &mut appends);
    mark(assertions, n, number, DELEGATE, count, &mut delegates);
    let bytes = put_sheet(
        names,
        slots,
        count,
        &reads[..count],
        &writes[..count],
        &appends[..count],
        &delegates[..count],
        output,
    );
    zero_rest(output, bytes);
    bytes
}

// First the variable is looked for, then its sheet is printed.
pub fn list(
    state: &[u8],
    principals: &[u32],
    vars: &[u32],
    assertions: &[u64],
    parts: Parts,
    variable: &[u8],
    output: &mut [u8],
) -> Answer
    requires { Understood state.now principals.now vars.now assertions.now parts × (length output.old ≡ 65536) }
    ensures { (u : Understood state.entry.now principals.now vars.now assertions.now parts)
        → replied result (record { state = state.exit.now; output = output.new })
        ≡ sheet_on (record { state = state.entry.now; output = output.old }) variable.now u.state }
{
    let vars_from = parts.vars_from;
    let vars_to = parts.vars_to;
    let Some(found) = find(&state[vars_from..vars_to], vars, parts.vars, variable) else {
        return Answer::Wrong(7);
    };
    let from = parts.principals_from;
    let to = parts.principals_to;
    let count = parts.principals;
    let bytes = print(
        &state[from..to],
        principals,
        count,
        assertions,
        parts.asserted,
        found.number,
        output,
    );
    Answer::Listed {
        lines: count,
        bytes,
    }
}
