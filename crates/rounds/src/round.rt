// A round on a board. The tree, the prices and the least slacks of the rows are kept from round to round.
ghost use Rattle.std.specs.Prelude.{◌≡◌, true, false, List, ℤ, MatchOption};
ghost use Rattle.transport.specs.Problem.{Problem};
ghost use Rattle.transport.specs.Potential.{is_finished_of};
ghost use Rattle.transport.specs.declared.Cell.{Cell};
ghost use Rattle.tree.specs.Basis.{SameStrikes, SameEnds};
ghost use Rattle.rounds.specs.Kept.{Kept};
ghost use Rattle.rounds.specs.Begun.{Begun, Judged};
ghost use Rattle.rounds.specs.OnBoard.{BegunOn, KeptOn, AdvancedOn, RoundedOn};

use board::Board;
use cuts::cut::plant;
use pivoting::pivot::pivot;
use pricing::scan::{PricedLane, entering, refresh_slacks, scan_slacks};
use transport::MAX_SIDE;
use tree::potential::reprice;
use tree::{Basis, LANES, NODES, Price};

// The tree and the prices of a tableau whose basis the strikes strike off; gives the least slacks of
// its rows.
pub fn begin(
    basis: &mut Basis,
    cost: &[Price; LANES],
    m: usize,
    n: usize,
    price: &mut [Price; NODES],
) -> [Price; MAX_SIDE]
    requires { let b = basis.old in
        (P : Problem) × (T : List Cell) × (q : List ℤ) × (e : List ℤ)
        × Begun P T q e cost.now b.leaf b.other b.lane m n }
    ensures kept { let a = basis.old in let b = basis.new in
        (P : Problem) (T : List Cell) (q e : List ℤ) → Begun P T q e cost.now a.leaf a.other a.lane m n
        → Kept P T q e cost.now price.new result b.sub b.path b.lane m n }
    ensures same_strikes { SameStrikes basis.old basis.new }
{
    basis.potentials(cost, m + n - 1, price);
    plant(basis, m, n);
    scan_slacks(cost, price, m, n)
}

// Whether the tableau is finished. `price` then has its prices.
pub fn is_finished(
    basis: &mut Basis,
    cost: &[Price; LANES],
    m: usize,
    n: usize,
    price: &mut [Price; NODES],
) -> bool
    requires { let b = basis.old in
        (P : Problem) × (T : List Cell) × (q : List ℤ) × (e : List ℤ)
        × Begun P T q e cost.now b.leaf b.other b.lane m n }
    ensures judged { let b = basis.old in
        (P : Problem) (T : List Cell) (q e : List ℤ) → Begun P T q e cost.now b.leaf b.other b.lane m n
        → Judged P T q e price.new basis.new.lane m n result }
    ensures same_strikes { SameStrikes basis.old basis.new }
{
    let slack = begin(basis, cost, m, n, price);
    entering(cost, price, &slack, m, n).is_none()
}

// The same, and nothing else: no tree is built and no prices are given.
pub fn test_finished(basis: &Basis, cost: &[Price; LANES], m: usize, n: usize) -> bool
    requires { let b = basis.now in
        (P : Problem) × (T : List Cell) × (q : List ℤ) × (e : List ℤ)
        × Begun P T q e cost.now b.leaf b.other b.lane m n }
    ensures { let b = basis.now in
        (P : Problem) (T : List Cell) (q e : List ℤ) → Begun P T q e cost.now b.leaf b.other b.lane m n
        → is_finished_of P T ≡ result }
{
    let mut price: [Price; NODES] = [0; NODES];
    basis.potentials(cost, m + n - 1, &mut price);
    let slack = scan_slacks(cost, &price, m, n);
    entering(cost, &price, &slack, m, n).is_none()
}

// A round: whether the tableau is finished; if not, the board then holds the next one.
pub fn advance(
    board: &mut Board,
    cost: &[Price; LANES],
    price: &mut [Price; NODES],
    slack: &mut [Price; MAX_SIDE],
    m: usize,
    n: usize,
) -> bool
    requires { (P : Problem) × (T : List Cell) × KeptOn P T board.old cost.now price.old slack.old m n }
    ensures advanced { (P : Problem) (T : List Cell) → KeptOn P T board.old cost.now price.old slack.old m n
        → AdvancedOn P T board.new cost.now price.new slack.new m n result }
    ensures same_ends { SameEnds board.old.basis board.new.basis }
{
    let Some(PricedLane { row, col, reduced }) = entering(cost, price, slack, m, n) else {
        return true;
    };
    let far = pivot(board, m, row, col);
    reprice(price, m, far, row, reduced);
    *slack = refresh_slacks(cost, price, m, n, far, row, reduced, *slack);
    false
}

// One round on a tableau of m sources and n sinks: whether it is finished. The board then holds it, or
// the next one if it is not, and `price` has the prices of the one that the board holds.
pub fn make_round(
    board: &mut Board,
    cost: &[Price; LANES],
    m: usize,
    n: usize,
    price: &mut [Price; NODES],
) -> bool
    requires { (P : Problem) × (T : List Cell) × BegunOn P T board.old cost.now m n }
    ensures rounded { (P : Problem) (T : List Cell) → BegunOn P T board.old cost.now m n
        → RoundedOn P T board.new price.new m n result }
    ensures same_ends { SameEnds board.old.basis board.new.basis }
{
    let mut slack = begin(&mut board.basis, cost, m, n, price);
    advance(board, cost, price, &mut slack, m, n)
}
