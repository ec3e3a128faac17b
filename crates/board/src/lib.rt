// The board of a search by rounds (specs/Board.antt): who is reached, and the assertions that a round goes over, linked by who hands on. Here
// they are entered on it, once for a search.
#![tactic(auto)]

ghost use Rattle.std.specs.Prelude.{◌≡◌, ◌≤◌, ◌<◌, length, replicate};
ghost use Rattle.board.specs.Board.{board_size, entered, Filed};
ghost use Rattle.search_steps.specs.Steps.{unreached};

use assertion::Assertion;

// The number of no assertion.
pub const NOTHING: u16 = 65535;

// Whom an assertion's step reaches: nobody, somebody, or the principal that the search is for (specs/Board.antt, `Stepped`).
#[derive(Clone, Copy)]
pub enum Reached {
    Nobody,
    Somebody,
    Principal,
}

// Assertion k is from q, and comes first of those from q. One from a number that no principal has leads nowhere.
fn enter(q: usize, k: usize, count: usize, board: &mut [u16])
    requires { (count ≤ 4096) × (k < 2048) × (board_size count k < length board.old) }
    ensures { (q < count → board.new ≡ entered count q k board.old) × (count ≤ q → board.new ≡ board.old) }
{
    if count <= q {
        return;
    }
    let first = board[count + q];
    board[count + q] = k as u16;
    board[3 * count + 1 + k] = first;
    if first != NOTHING {
        return;
    }
    board[2 * count + q] = k as u16;
}

// All assertions of a list are entered on a board that has nothing yet.
pub fn file(list: &[Assertion], count: usize, board: &mut [u16])
    requires { (length list.now ≤ 2048) × (count ≤ 4096) × (board.old ≡ replicate (board_size count (length list.now)) unreached) }
    ensures { Filed count list.now (length list.now) board.new }
{
    for k in 0..list.len() {
        let q = list[k].from as usize;
        enter(q, k, count, board);
    }
}
