// The assertions that stand: numbers in order of entry, the first `n` of a lent array, each an assertion's four numbers in one.
#![tactic(auto)]

ghost use Rattle.std.specs.Prelude.{◌≡◌, ◌++◌, ◌+◌, ◌-◌, ◌≤◌, ◌<◌, length, take, drop};
ghost use Rattle.assertion_list.specs.Asserting.{stands_in, enter_number, withdraw_number};
ghost use Rattle.assertion_list.specs.Shapes.{FirstMeant};

// Whether `a` stands. The loop looks at every number, so that some are looked at together.
pub fn stands(list: &[u64], n: usize, a: u64) -> bool
    requires { n ≤ length list.now }
    ensures { result ≡ stands_in (take n list.now) a }
{
    let mut hit = false;
    for b in &list[..n] {
        if *b == a {
            hit = true;
        }
    }
    hit
}

// Enters `a` last, unless it stands; how many stand then.
pub fn enter(list: &mut [u64], n: usize, a: u64) -> usize
    requires { n < length list.old }
    ensures entered { take result list.new ≡ enter_number (take n list.old) a }
    ensures others { ((n ≤ result) × (result ≤ n + 1)) × (drop result list.new ≡ drop result list.old) }
{
    if stands(list, n, a) {
        return n;
    }
    list[n] = a;
    n + 1
}

// The place of the first number that equals `a`.
fn first(list: &[u64], n: usize, a: u64) -> Option<usize>
    requires { n ≤ length list.now }
    ensures { FirstMeant list.now n a result }
{
    list[..n].iter().position(|b| *b == a)
}

// Withdraws `a`, if it stands: the numbers after it, up to place `n`, each move down by one. How many stand then.
pub fn withdraw(list: &mut [u64], n: usize, a: u64) -> usize
    requires { n ≤ length list.old }
    ensures withdrawn { take result list.new ≡ withdraw_number (take n list.old) a }
    ensures others { (result ≤ n) × (drop n list.new ≡ drop n list.old) }
{
    let Some(k) = first(list, n, a) else {
        return n;
    };
    list.copy_within(k + 1..n, k);
    n - 1
}
