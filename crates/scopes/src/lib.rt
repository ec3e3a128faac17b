// Whether a name is defined, by the texts of the shared variables and of the locals.
#![tactic(auto)]

ghost use Rattle.std.specs.Prelude.{◌≡◌};
ghost use Rattle.language.specs.Values.{Session, is_defined};
ghost use Rattle.scopes.specs.Scopes.{Scope, SomeScope};

// Whether a name has a value: the text of a value is never empty.
pub fn is_defined<'a>(
    shared: &'a [u8],
    slots: &[u32],
    count: usize,
    locals: &'a [u8],
    lslots: &[u32],
    lcount: usize,
    name: &[u8],
) -> bool
    requires { SomeScope shared.now slots.now count locals.now lslots.now lcount }
    ensures { (s : Session) → Scope s shared.now slots.now count locals.now lslots.now lcount
        → result ≡ is_defined s name.now }
{
    let value = contents::read(shared, slots, count, locals, lslots, lcount, name);
    0 < value.len()
}
