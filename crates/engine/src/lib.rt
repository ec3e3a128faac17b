// Whole programs on a running session. Document 01, "A run".
#![tactic(auto)]

pub mod command; // one command, and the line that it prints

ghost use Rattle.std.specs.Prelude.{◌≡◌, ◌≤◌, length};
ghost use Rattle.language.specs.Programs.{longest};
ghost use Rattle.language.specs.Values.{Session};
ghost use Rattle.parser.specs.Bodies.{body_from};
ghost use Rattle.session.specs.Sessions.{Running, SomeRunning, slices};
ghost use Rattle.outcome.specs.Ends.{end_on, Ends};

use outcome::{Performed, refused};
use session::Layout;

// The commands of the lines from `at` on, each done as it is read, to the first that cannot be. The scratch buffers are room for values and
// slots.
pub fn perform(
    principals: &mut [u8],
    principal_slots: &mut [u32],
    vars: &mut [u8],
    variable_slots: &mut [u32],
    locals: &mut [u8],
    local_slots: &mut [u32],
    assertions: &mut [u64],
    value: &mut [u8],
    labels: &mut [u32],
    start: Layout,
    text: &[u8],
    at: usize,
    output: &mut [u8],
) -> Performed
    requires some_running { SomeRunning start (slices principals.old principal_slots.old vars.old variable_slots.old locals.old local_slots.old assertions.old) }
    requires value_len { (length value.old ≡ 45056) × (length labels.old ≡ 4096) }
    requires at_in_bounds { (at ≤ length text.now) × (length text.now ≤ longest) × (length output.old ≡ 65536) }
    ensures { (s : Session) → Running s start (slices principals.old principal_slots.old vars.old variable_slots.old locals.old local_slots.old assertions.old)
        → Ends result s.sender (end_on s (body_from text.now at)) (slices principals.new principal_slots.new vars.new variable_slots.new locals.new local_slots.new assertions.new) output.old output.new }
{
    let mut l = start;
    let mut p = at;
    let mut n: usize = 0;
    let mut lines: usize = 0;
    loop {
        let Some(read) = parser::read_at(text, p) else {
            return Performed::Broken;
        };
        let acted = command::act(
            principals,
            principal_slots,
            vars,
            variable_slots,
            locals,
            local_slots,
            assertions,
            value,
            labels,
            l,
            text,
            read.command,
        );
        let done = command::tell(acted, value, l, output, n);
        match done {
            Ok((after, end)) => {
                lines += 1;
                let Some(next) = read.rest else {
                    return Performed::Completed(after, end, lines);
                };
                l = after;
                n = end;
                p = next;
            }
            Err(how) => return refused(text, read.rest, how),
        }
    }
}
