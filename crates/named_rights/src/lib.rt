// Whether a principal has a right, asked by numbers and answered for names. What the engine knows of chains it knows from here.
#![tactic(auto)]

ghost use Rattle.std.specs.Prelude.{◌≡◌, map, ◌≤◌, ◌<◌, T, length};
ghost use Rattle.language.specs.Syntax.{Name, Right};
ghost use Rattle.language.specs.State.{Store};
ghost use Rattle.language.specs.Valid.{valid_store};
ghost use Rattle.language.specs.Chains.{chain_length, has};
ghost use Rattle.named_rights.specs.Numbers.{Standing, Asks, AsksAll, length_marked, length_of, principals_of};

// The shortest chain for a right on a variable to a principal, by the first n assertions, among `count` principals.
pub fn chain(
    assertions: &[u64],
    n: usize,
    count: usize,
    variable: usize,
    right: u16,
    principal: usize,
) -> Option<usize>
    requires { (n ≤ length assertions.now) × (n ≤ 2048) × (count ≤ 1024) × (variable < 65536) }
    ensures { (s : Store) (r : Right) (x p : Name) → T (valid_store s) → Standing s n assertions.now
        → Asks s r x p count variable right principal → length_of result ≡ chain_length s r x p }
{
    rights::shortest(&assertions[..n], count, variable as u16, right, principal).answer
}

// Whether there is one.
pub fn may(
    assertions: &[u64],
    n: usize,
    count: usize,
    variable: usize,
    right: u16,
    principal: usize,
) -> bool
    requires { (n ≤ length assertions.now) × (n ≤ 2048) × (count ≤ 1024) × (variable < 65536) }
    ensures { (s : Store) (r : Right) (x p : Name) → T (valid_store s) → Standing s n assertions.now
        → Asks s r x p count variable right principal → result ≡ has s r x p }
{
    let a = chain(assertions, n, count, variable, right, principal);
    a.is_some()
}

// The shortest chains for a right on a variable to everyone, in order of creation, by the first n assertions: a mark for each, its length.
pub fn lengths(assertions: &[u64], n: usize, variable: usize, right: u16, marks: &mut [u16])
    requires { (n ≤ length assertions.now) × (n ≤ 2048) × (1 < length marks.old) × (length marks.old ≤ 1024) × (variable < 65536) }
    ensures { (s : Store) (r : Right) (x : Name) → T (valid_store s) → Standing s n assertions.now
        → AsksAll s r x (length marks.old) variable right
        → map length_marked marks.new ≡ map (chain_length s r x) (principals_of s) }
{
    marking::lengths(&assertions[..n], variable as u16, right, marks);
}
