// Whether a tableau belongs to a problem.
#![tactic(auto)]

pub mod flows;
pub mod weights;

ghost use Rattle.std.specs.Prelude.{◌≡◌, true, List, ℤ, length};
ghost use Rattle.transport.specs.Laws.Sound.{Sound};
ghost use Rattle.transport.specs.Tableau.{cells_of};
ghost use Rattle.transport.specs.Belonging.{balanced, belongs};
ghost use Rattle.transport.specs.declared.Cell.{Cell};
ghost use Rattle.transport.specs.Laws.ProblemLaws.{problem};
ghost use Rattle.tree.specs.Basis.{SameCuts};
ghost use Rattle.board.specs.OnBoard.{LoadedOn};
ghost use Rattle.board.specs.Held.{Empty};
ghost use Rattle.belonging.specs.Spread.{BalancingOn};

use board::{Board, fit, spread};
use transport::Tableau;

// Whether the amounts on the basic lanes, which the strikes strike off, add up to the paired supplies
// and demands: they are then one flow of the bags and one of the marks.
fn balances(supply: &[u64], demand: &[u64], board: &Board) -> bool
    requires sound { (cost : List ℤ) × Sound (problem supply.now demand.now cost) }
    requires balancing { (T : List Cell) × BalancingOn (length supply.now) (length demand.now) T board.now }
    ensures { (cost : List ℤ) (T : List Cell) → BalancingOn (length supply.now) (length demand.now) T board.now
        → result ≡ balanced (problem supply.now demand.now cost) T }
{
    let m = supply.len();
    let n = demand.len();
    let mut bags = weights::weigh_bags(supply, demand);
    let mut marks = weights::weigh_marks(m, n);
    let count = m + n - 1;
    flows::flows_match(&mut bags, &board.amounts.q, &board.basis, count)
        && flows::flows_match(&mut marks, &board.amounts.e, &board.basis, count)
}

// Whether the tableau belongs to the problem with these supplies and demands, whatever its costs. If it
// does, its amounts then lie on their lanes, and the strikes strike off its basis. There are m + n - 1
// lanes, so they join all nodes without a loop if all are struck off.
pub fn load(supply: &[u64], demand: &[u64], t: Tableau, board: &mut Board) -> bool
    requires sound { (cost : List ℤ) × Sound (problem supply.now demand.now cost) }
    requires empty { Empty board.old.amounts.q board.old.amounts.e }
    ensures value { (cost : List ℤ) → result ≡ belongs (problem supply.now demand.now cost) t }
    ensures loaded { result ≡ true → LoadedOn (length supply.now) (length demand.now) (cells_of t) board.new }
    ensures same_cuts { SameCuts board.old.basis board.new.basis }
{
    let m = supply.len();
    let n = demand.len();
    let size = m + n - 1;
    // The count first: it may say more cells than there are.
    if t.count != size {
        return false;
    }
    if !fit::cells_fit(&t, m, n) {
        return false;
    }
    if spread::lay_out(t, m, n, board) != size {
        return false;
    }
    balances(supply, demand, board)
}
