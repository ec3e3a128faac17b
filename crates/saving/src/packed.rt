// The assertions' lines, from their numbers.
ghost use Rattle.std.specs.Prelude.{length};
ghost use Rattle.language.specs.State.{Assertion, Store};
ghost use Rattle.language.specs.Encode.{assertion_text, assertions_text};
ghost use Rattle.value_text.specs.Writing.{Written};
ghost use Rattle.named_rights.specs.Numbers.{Standing};
ghost use Rattle.saving.specs.Stores.{Named, Assertions, SomeAssertion, SomeAssertions};

use crate::number::{letter_of, name_of};
use session::Layout;
use state_lines::put_assertion;

// The line of the assertion of a number.
fn put_packed(
    out: &mut [u8],
    at: usize,
    principals: &[u8],
    principal_slots: &[u32],
    vars: &[u8],
    variable_slots: &[u32],
    l: Layout,
    number: u64,
) -> usize
    requires { SomeAssertion l principals.now principal_slots.now vars.now variable_slots.now number at (length out.old) }
    ensures { (s : Store) (a : Assertion) → Named s l principals.now principal_slots.now vars.now variable_slots.now
        → Assertions s a number → Written out.old at (assertion_text a) result out.new }
{
    let a = assertion::Assertion::from(number);
    let x = name_of(vars, variable_slots, l.vars, a.variable as usize);
    let q = name_of(principals, principal_slots, l.principals, a.from as usize);
    let p = name_of(principals, principal_slots, l.principals, a.to as usize);
    put_assertion(out, at, x, q, letter_of(a.right), p)
}

// The lines of all assertions, in order of entry.
pub fn put_all_packed(
    out: &mut [u8],
    at: usize,
    principals: &[u8],
    principal_slots: &[u32],
    vars: &[u8],
    variable_slots: &[u32],
    assertions: &[u64],
    l: Layout,
) -> usize
    requires { SomeAssertions l principals.now principal_slots.now vars.now variable_slots.now assertions.now at (length out.old) }
    ensures { (s : Store) → Named s l principals.now principal_slots.now vars.now variable_slots.now
        → Standing s l.asserted assertions.now → Written out.old at (assertions_text s.assertions) result out.new }
{
    let n = l.asserted;
    let mut p = at;
    for number in &assertions[..n] {
        p = put_packed(
            out,
            p,
            principals,
            principal_slots,
            vars,
            variable_slots,
            l,
            *number,
        );
    }
    p
}
