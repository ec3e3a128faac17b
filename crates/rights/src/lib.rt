// Whether a chain of delegation leads from admin to a principal, and how many steps the shortest has. Nothing but numbers: principal 0
// is admin, 1 is anyone, and an assertion is a record of four numbers, which a caller hands over in one (`assertion`).
#![tactic(auto)]

ghost use Rattle.std.specs.Prelude.{◌≡◌, map, ◌≤◌, ◌<◌, get_or, length, replicate};
ghost use Rattle.assertion.specs.Packed.{fields};
ghost use Rattle.board.specs.Board.{board_size, Ready};
ghost use Rattle.chains.specs.Chain.{asked, Searched};
ghost use Rattle.chains.specs.Rounds.{found, Whoever};
ghost use Rattle.search_steps.specs.Steps.{handed, unreached};

use assertion::Assertion;
use board::Reached;
use frontier::{first, next, prepare, spread, step};
use search_steps::{UNREACHED, gather};

// What a search says, the length of the shortest chain or that there is none, and how many rounds were begun for it.
#[derive(Clone, Copy)]
pub struct Outcome {
    pub answer: Option<usize>,
    pub rounds: usize,
}

// Rounds until the principal is marked, or until one marks nobody: how many were begun. Both loops are left the moment the principal is
// marked. They are thin: they take the records out one by one, and the functions of `frontier` do the work over the plain board.
fn search(list: &[Assertion], principal: usize, count: usize, board: &mut [u16]) -> u16
    requires { (length list.now ≤ 2048) × (count ≤ 4096) × (0 < principal) × (principal < count) × Ready count list.now board.old }
    ensures { Whoever (map handed list.now) count (λ a. Searched a principal (found result (get_or board.new principal 0)) result) }
{
    let mut d: u16 = 0;
    'search: loop {
        if spread(d, principal, board) {
            break 'search d + 1;
        }
        let mut n: usize = 0;
        let mut i: usize = first(count, board);
        while i < list.len() {
            match step(list[i], d, principal, count, board) {
                Reached::Nobody => {}
                Reached::Somebody => n += 1,
                Reached::Principal => break 'search d + 1,
            }
            i = next(i, count, board);
        }
        if n == 0 {
            break 'search d + 1;
        }
        d += 1;
    }
}

// What a search that began so many rounds says, by the principal's mark.
fn report(rounds: u16, mark: u16) -> Outcome
    ensures { (result.answer ≡ found rounds mark) × (result.rounds ≡ rounds) }
{
    let rounds = usize::from(rounds);
    let answer = if mark == UNREACHED {
        None
    } else {
        Some(rounds)
    };
    Outcome { answer, rounds }
}

// The search over a list, on a board that has nothing yet.
fn run(list: &[Assertion], principal: usize, count: usize, board: &mut [u16]) -> Outcome
    requires { (length list.now ≤ 2048) × (count ≤ 4096) × (0 < principal) × (principal < count)
        × (board.old ≡ replicate (board_size count (length list.now)) unreached) }
    ensures { Whoever (map handed list.now) count (λ a. Searched a principal result.answer result.rounds) }
{
    prepare(list, count, board);
    let rounds = search(list, principal, count, board);
    report(rounds, board[principal])
}

// The search over the assertions for a variable and a right, on a board that is large enough for all of them.
fn run_gathered(
    assertions: &[u64],
    variable: u16,
    right: u16,
    principal: usize,
    count: usize,
    board: &mut [u16],
) -> Outcome
    requires { (length assertions.now ≤ 2048) × (count ≤ 4096) × (0 < principal) × (principal < count)
        × (board_size count (length assertions.now) ≤ length board.old) × (board.old ≡ replicate (length board.old) unreached) }
    ensures { Searched (asked (map fields assertions.now) count variable right) principal result.answer result.rounds }
{
    let mut list = [Assertion::default(); 2048];
    let n = gather(assertions, variable, right, &mut list);
    run(
        &list[..n],
        principal,
        count,
        &mut board[..3 * count + 1 + n],
    )
}

// With a board of its own, of so many numbers: most of a short search's time is clearing its board.
fn with_board<const SIZE: usize>(
    assertions: &[u64],
    variable: u16,
    right: u16,
    principal: usize,
    count: usize,
) -> Outcome
    requires { (length assertions.now ≤ 2048) × (count ≤ 4096) × (0 < principal) × (principal < count)
        × (board_size count (length assertions.now) ≤ SIZE) × (SIZE ≤ 5121) }
    ensures { Searched (asked (map fields assertions.now) count variable right) principal result.answer result.rounds }
{
    let mut board = [UNREACHED; SIZE];
    run_gathered(
        assertions,
        variable,
        right,
        principal,
        count,
        &mut board[..],
    )
}

// The shortest chain from admin to a principal, for a right on a variable, among `count` principals; and the rounds begun for it. For a
// number that no principal has, none is begun.
pub fn shortest(
    assertions: &[u64],
    count: usize,
    variable: u16,
    right: u16,
    principal: usize,
) -> Outcome
    requires { (count ≤ 1024) × (length assertions.now ≤ 2048) }
    ensures { Searched (asked (map fields assertions.now) count variable right) principal result.answer result.rounds }
{
    if count <= principal {
        return Outcome {
            answer: None,
            rounds: 0,
        };
    }
    if principal == 0 {
        return Outcome {
            answer: Some(0),
            rounds: 0,
        };
    }
    if 3 * count + assertions.len() < 256 {
        return with_board::<256>(assertions, variable, right, principal, count);
    }
    with_board::<5121>(assertions, variable, right, principal, count)
}
