// The shared variables of a state text.
ghost use Rattle.std.specs.Prelude.{◌≡◌, not, ◌≤◌, length, drop};
ghost use Rattle.validate.specs.Shared.{off_variable, VariablesMeant};

use record_fields::Section;

// Whether a variable's line starts here, or one that can stand only within a variable's text.
fn goes_on(text: &[u8], at: usize) -> bool
    ensures { result ≡ not (off_variable (drop at text.now)) }
{
    matches!(lines::byte_at(text, at), b'S' | b'R' | b'F' | b'V')
}

// The variables, all names different. The slots from the n-th on are free for the labels of the n-th variable's records.
pub fn variables(text: &[u8], at: usize, w: usize, slots: &mut [u32]) -> Option<Section>
    requires { (at ≤ length text.now) × (length text.now ≤ 65536) × (length slots.old ≡ 4096) × (w ≤ 8192) }
    ensures { VariablesMeant text.now at w slots.new result }
{
    let mut i = at;
    let mut n = 0;
    let mut now = w;
    while goes_on(text, i) {
        if lines::byte_at(text, i) != b'V' {
            return None;
        }
        let line = records::variable_at(text, i, now, &mut slots[n..])?;
        if !record_fields::enter(text, at, i, line.name_end, slots, n) {
            return None;
        }
        n += 1;
        i = line.end;
        now = line.weighed;
    }
    Some(Section {
        end: i,
        count: n,
        weighed: now,
    })
}
