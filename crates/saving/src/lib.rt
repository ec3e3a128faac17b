// The state text that a completed program leaves: written anew from the session's parts, line by line, and zeros after it.
#![tactic(auto)]

mod packed; // the assertions' lines
mod number; // what a number stands for: a record's name, a right's letter

ghost use Rattle.std.specs.Prelude.{◌≡◌, ◌-◌, ◌≤◌, length, drop, replicate};
ghost use Rattle.language.specs.Syntax.{Name};
ghost use Rattle.language.specs.State.{Store, last_count};
ghost use Rattle.language.specs.Encode.{principals_text, state_text, padded};
ghost use Rattle.language.specs.Values.{Session};
ghost use Rattle.language.specs.Run as Run;
ghost use Rattle.value_text.specs.Writing.{Written};
ghost use Rattle.session.specs.Sessions.{slices, Running, SomeRunning};
ghost use Rattle.saving.specs.Stores.{records_text, Sent, SomeSent, Recorded, SomeRecords};

use counts::count_of;
use decimals::put_decimal;
use session::Layout;
use state_lines::{put_delegator, put_header, zero_rest};
use value_text::copy_in;

// One completed program more; the count stays at its last value.
fn counted(count: u64) -> u64
    requires { count ≤ last_count }
    ensures { (result ≡ Run.counted count) × (result ≤ last_count) }
{
    if count < 4294967295 {
        return count + 1;
    }
    count
}

// The principals' lines: all as they are, but for the digits of the sender's count.
fn put_principals(
    out: &mut [u8],
    at: usize,
    principals: &[u8],
    principal_slots: &[u32],
    l: Layout,
) -> usize
    requires { SomeSent l principals.now principal_slots.now at (length out.old) }
    ensures { (s : Store) (p : Name) → Sent s p l principals.now principal_slots.now
        → Written out.old at (principals_text (Run.tally p s).principals) result out.new }
{
    let old = count_of(principals, principal_slots, l.principals, l.sender);
    let start = old.start;
    let end = old.end;
    let a = copy_in(out, at, &principals[..start]);
    let more = counted(old.value);
    let b = put_decimal(out, a, more as u32);
    copy_in(out, b, &principals[end..])
}

// The lines before the assertions: the first line, the principals, the default delegator and the variables.
fn put_records(
    out: &mut [u8],
    principals: &[u8],
    principal_slots: &[u32],
    vars: &[u8],
    l: Layout,
) -> usize
    requires { SomeRecords l principals.now principal_slots.now vars.now (length out.old) }
    ensures { (s : Store) (p : Name) → Recorded s p l principals.now principal_slots.now vars.now
        → Written out.old 0 (records_text (Run.tally p s)) result out.new }
{
    let a = put_header(out, 0, l.is_open);
    let b = put_principals(out, a, principals, principal_slots, l);
    let name = number::name_of(principals, principal_slots, l.principals, l.delegator);
    let c = put_delegator(out, b, name);
    copy_in(out, c, vars)
}

// The whole state text, in which the program counts for its sender, and zeros to the buffer's end. The locals are gone. From `used` on the
// buffer holds zeros already, so that only what the old text leaves behind the new one is cleared.
pub fn save(
    principals: &[u8],
    principal_slots: &[u32],
    vars: &[u8],
    variable_slots: &[u32],
    locals: &[u8],
    local_slots: &[u32],
    assertions: &[u64],
    l: Layout,
    state: &mut [u8],
    used: usize,
)
    requires some_running { SomeRunning l (slices principals.now principal_slots.now vars.now variable_slots.now locals.now local_slots.now assertions.now) }
    requires state_len { (length state.old ≡ 65536) × (used ≤ 65536) × (drop used state.old ≡ replicate (65536 - used) 0) }
    ensures { (s : Session)
        → Running s l (slices principals.now principal_slots.now vars.now variable_slots.now locals.now local_slots.now assertions.now)
        → state.new ≡ padded (state_text (Run.tally s.sender s.store)) }
{
    let principals_len = l.principals_len;
    let vars_len = l.vars_len;
    let roster = &principals[..principals_len];
    let shared = &vars[..vars_len];
    let a = put_records(state, roster, principal_slots, shared, l);
    let b = packed::put_all_packed(
        state,
        a,
        roster,
        principal_slots,
        shared,
        variable_slots,
        assertions,
        l,
    );
    if used <= b {
        return;
    }
    zero_rest(&mut state[..used], b);
}
