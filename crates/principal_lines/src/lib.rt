// The principals of a state text, in the lines of now or in the former ones.
#![tactic(auto)]

ghost use Rattle.std.specs.Prelude.{◌≡◌, not, ◌+◌, ◌*◌, ◌≤◌, length, drop, get_or};
ghost use Rattle.principal_lines.specs.Principals.{form_meant, stop_of, base_of, least_of, TailMeant, SecretMeant, PrincipalMeant, PrincipalsMeant, off_principal, in_place};

use contents::name_weight;
use record_fields::{Entry, LIMIT, Section};
use text::Alphabet;

// The lines of now, in which a principal's line ends with its count; and those before them, in which it ends with its name or password.
#[derive(Clone, Copy)]
pub enum Form {
    Current,
    Former,
}

// The byte that ends the last field before the count.
fn stop(form: Form) -> u8
    ensures { result ≡ stop_of (form_meant form) }
{
    match form {
        Form::Current => b'\t',
        Form::Former => b'\n',
    }
}

// What a principal weighs beside its name and password.
fn base(form: Form) -> usize
    ensures { result ≡ base_of (form_meant form) }
{
    match form {
        Form::Current => 11,
        Form::Former => 1,
    }
}

// What follows that byte up to the line's end: the count, or nothing. Where the line ends.
fn tail_at(text: &[u8], at: usize, form: Form) -> Option<usize>
    requires { at ≤ length text.now }
    ensures { TailMeant (form_meant form) text.now at result }
{
    match form {
        Form::Current => {
            let (_, e) = lines::number_at(text, at)?;
            Some(e + 1)
        }
        Form::Former => Some(at),
    }
}

// A password, and what follows it up to the line's end: where that is, and what is weighed with it.
fn secret_at(text: &[u8], at: usize, form: Form, w: usize) -> Option<(usize, usize)>
    requires { (at ≤ length text.now) × (w ≤ 16384) }
    ensures { SecretMeant (form_meant form) text.now at w result }
{
    let m = lines::run_cut(text, at, Alphabet::Text, stop(form))?;
    let size = m - at;
    if size > LIMIT || w + size > LIMIT {
        return None;
    }
    let e = tail_at(text, m + 1, form)?;
    Some((e, w + size))
}

// A principal with a password.
fn keyed_at(text: &[u8], at: usize, form: Form, w: usize) -> Option<Entry>
    requires { (get_or text.now at 0 ≡ 80) × (get_or text.now (at + 1) 0 ≡ 9) × (w ≤ 8192) }
    ensures { PrincipalMeant (form_meant form) text.now at w result }
{
    let from = at + 2;
    let name_end = lines::name_end(text, from, b'\t')?;
    let before = w + base(form) + name_weight(&text[from..name_end]);
    let (end, weighed) = secret_at(text, name_end + 1, form, before)?;
    Some(Entry {
        name_end,
        end,
        weighed,
    })
}

// A principal that has no password.
fn plain_at(text: &[u8], at: usize, form: Form, w: usize) -> Option<Entry>
    requires { (get_or text.now at 0 ≡ 78) × (get_or text.now (at + 1) 0 ≡ 9) × (w ≤ 8192) }
    ensures { PrincipalMeant (form_meant form) text.now at w result }
{
    let from = at + 2;
    let name_end = lines::name_end(text, from, stop(form))?;
    let weighed = w + base(form) + name_weight(&text[from..name_end]);
    if weighed > LIMIT {
        return None;
    }
    let end = tail_at(text, name_end + 1, form)?;
    Some(Entry {
        name_end,
        end,
        weighed,
    })
}

fn principal_at(text: &[u8], at: usize, form: Form, w: usize) -> Option<Entry>
    requires { (at ≤ length text.now) × (w ≤ 8192) }
    ensures { PrincipalMeant (form_meant form) text.now at w result }
{
    if lines::byte_at(text, at + 1) != b'\t' {
        return None;
    }
    let first = lines::byte_at(text, at);
    if first == b'P' {
        keyed_at(text, at, form, w)
    } else if first == b'N' {
        plain_at(text, at, form, w)
    } else {
        None
    }
}

// Whether a principal's line starts here.
fn goes_on(text: &[u8], at: usize) -> bool
    ensures { result ≡ not (off_principal (drop at text.now)) }
{
    matches!(lines::byte_at(text, at), b'P' | b'N')
}

// Whether the n-th principal may have this name, with a password or without.
fn in_place(name: &[u8], has: bool, n: usize) -> bool
    ensures { result ≡ in_place n name.now has }
{
    match n {
        0 => has && text::same_bytes(name, b"admin"),
        1 => text::same_bytes(name, b"anyone"),
        _ => has,
    }
}

// The principals: admin first, anyone second, all names different. By the weight there are no more than the slots are for.
pub fn principals(text: &[u8], at: usize, form: Form, slots: &mut [u32]) -> Option<Section>
    requires { (at ≤ length text.now) × (length text.now ≤ 65536) × (8192 ≤ least_of (form_meant form) * length slots.old) }
    ensures { PrincipalsMeant (form_meant form) text.now at slots.new result }
{
    let mut i = at;
    let mut n = 0;
    let mut now = 0;
    while goes_on(text, i) {
        let line = principal_at(text, i, form, now)?;
        let from = i + 2;
        if !in_place(&text[from..line.name_end], text[i] == b'P', n) {
            return None;
        }
        if !record_fields::enter(text, at, i, line.name_end, slots, n) {
            return None;
        }
        n += 1;
        i = line.end;
        now = line.weighed;
    }
    if n < 2 {
        return None;
    }
    Some(Section {
        end: i,
        count: n,
        weighed: now,
    })
}
