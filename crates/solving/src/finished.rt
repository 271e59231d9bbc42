// The settled plan from the board of a finished tableau.
ghost use Rattle.std.specs.Prelude.{◌≡◌, true, List, ℤ};
ghost use Rattle.transport.specs.Problem.{Problem};
ghost use Rattle.transport.specs.declared.Cell.{Cell};
ghost use Rattle.cost_grid.specs.Costs.{Costed};
ghost use Rattle.rounds.specs.Begun.{Judged};
ghost use Rattle.solving.specs.Finished.{SettledBags};

use board::Board;
use board::gather::draw;
use settle::lanes::settle_lanes;
use tight::tight_lanes;
use transport::MAX_SIDE;
use tree::{LANES, NODES, Price};

// Settles the board of a finished tableau of m sources and n sinks: its bags become those of the
// optimal plan that carries more on the first lane where it differs from any other. Marks play no
// part, so that e may be any.
pub fn settle_board(
    board: &mut Board,
    cost: &[Price; LANES],
    price: &[Price; NODES],
    m: usize,
    n: usize,
)
    requires { (P : Problem) × (T : List Cell) × (e : List ℤ)
        × Judged P T board.old.amounts.q e price.now board.old.basis.lane m n true
        × Costed P cost.now }
    ensures settled { (P : Problem) (T : List Cell) (e : List ℤ)
        → Judged P T board.old.amounts.q e price.now board.old.basis.lane m n true
        → Costed P cost.now → SettledBags P m n board.new.amounts.q }
    ensures only_bags { (board.new.basis ≡ board.old.basis) × (board.new.amounts.e ≡ board.old.amounts.e) }
{
    let mut adj = [0; NODES];
    draw(&board.basis, m, m + n - 1, &mut adj);
    let mut tight = [0; MAX_SIDE];
    tight_lanes(cost, price, &mut tight, m, n);
    settle_lanes(&mut board.amounts.q, &tight, &adj, m, n);
}
