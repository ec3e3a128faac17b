// The steps of a search by rounds, on its board (`board`): a round goes over those assertions only that lead on from somebody who was
// reached in the round before.
#![tactic(auto)]

ghost use Rattle.std.specs.Prelude.{◌≡◌, ◌⊎◌, ◌+◌, ◌*◌, ◌≤◌, ◌<◌, get_or, length, replicate, set};
ghost use Rattle.board.specs.Board.{board_size, first_from, following, last_from, next_round, nothing, pushed, Ready, Spread, Stepped};
ghost use Rattle.search_steps.specs.Steps.{unreached};

use assertion::Assertion;
use board::{NOTHING, Reached, file};
use search_steps::mark;

// The assertions from t are put before those of the round to come.
fn push(t: usize, count: usize, board: &mut [u16])
    requires { (count ≤ 4096) × (t < count) × (3 * count < length board.old) × ((first_from count board.old t ≡ nothing) ⊎ (board_size count (last_from count board.old t) < length board.old)) }
    ensures { board.new ≡ pushed count t board.old }
{
    let first = board[count + t];
    if first == NOTHING {
        return;
    }
    let last = board[2 * count + t] as usize;
    board[3 * count + 1 + last] = board[3 * count];
    board[3 * count] = first;
}

// The board of a search over a list: admin alone is reached, and the first round goes over the assertions from admin.
pub fn prepare(list: &[Assertion], count: usize, board: &mut [u16])
    requires { (length list.now ≤ 2048) × (0 < count) × (count ≤ 4096) × (board.old ≡ replicate (board_size count (length list.now)) unreached) }
    ensures { Ready count list.now board.new }
{
    file(list, count, board);
    board[0] = 0;
    push(0, count, board);
}

// Anyone's step, first in round d: whether anyone was reached in the round before, so that everybody is now, the principal among them.
pub fn spread(d: u16, principal: usize, board: &mut [u16]) -> bool
    requires { (d < 4096) × (principal < length board.old) × (1 < length board.old) }
    ensures { Spread d principal board.old board.new result }
{
    if board[1] != d {
        return false;
    }
    board[principal] = d + 1;
    true
}

// The first assertion of the round that begins. The round after it has none yet.
pub fn first(count: usize, board: &mut [u16]) -> usize
    requires { (count ≤ 4096) × (3 * count < length board.old) }
    ensures { (result ≡ next_round count board.old) × (board.new ≡ set board.old (3 * count) nothing) }
{
    let i = board[3 * count] as usize;
    board[3 * count] = NOTHING;
    i
}

// The assertion that is gone over after assertion i.
pub fn next(i: usize, count: usize, board: &[u16]) -> usize
    requires { (count ≤ 4096) × (i < 2048) × (board_size count i < length board.now) }
    ensures { result ≡ following count board.now i }
{
    board[3 * count + 1 + i] as usize
}

// One assertion's step in round d: whom it reaches. Whoever is reached leads on in the next round.
pub fn step(a: Assertion, d: u16, principal: usize, count: usize, board: &mut [u16]) -> Reached
    requires { (d < 4096) × (count ≤ 4096) × (3 * count < length board.old)
        × (a.to < count → get_or board.old a.to 0 ≡ unreached → (first_from count board.old a.to ≡ nothing) ⊎ (board_size count (last_from count board.old a.to) < length board.old)) }
    ensures { Stepped count d a.from a.to principal board.old board.new result }
{
    let reached = mark(a, d, &mut board[..count]);
    if !reached {
        return Reached::Nobody;
    }
    let t = a.to as usize;
    if t == principal {
        return Reached::Principal;
    }
    push(t, count, board);
    Reached::Somebody
}
