// The first tableau of a sheet, dealt and laid out.
ghost use Rattle.std.specs.Prelude.{List, ℤ};
ghost use Rattle.transport.specs.Sheet.{sheet_of};
ghost use Rattle.transport.specs.Parties.{problem_of};
ghost use Rattle.transport.specs.Tableau.{start};
ghost use Rattle.transport.specs.Statements.{Accepted};
ghost use Rattle.parties.specs.Parties.{PartiesOf};
ghost use Rattle.tree.specs.Basis.{SameCuts};
ghost use Rattle.board.specs.Held.{Empty};
ghost use Rattle.loading.specs.Loading.{Admitted};
ghost use Rattle.solving.specs.First.{Dealt};

use board::Board;
use board::spread::lay_out;
use cost_grid::spread_costs;
use dealing::corner::first_tableau;
use parties::{Parties, number_parties};
use transport::Tableau;
use tree::{LANES, Price};

// The parties of a sheet, and the first tableau of those left.
#[derive(Clone, Copy)]
pub struct First {
    pub parties: Parties,
    pub tableau: Tableau,
}

// Of a sheet that passed its check: numbers the parties, and deals the first tableau of those left.
// Costs play no part.
pub fn deal_sheet(supply: &[u64], demand: &[u64]) -> First
    requires { (cost : List ℤ) × Accepted (sheet_of supply.now demand.now cost) }
    ensures { (cost : List ℤ) → Accepted (sheet_of supply.now demand.now cost)
        → Dealt (sheet_of supply.now demand.now cost) result.parties result.tableau }
{
    let parties = number_parties(supply, demand);
    let tableau = first_tableau(parties.supplies(), parties.demands());
    First { parties, tableau }
}

// Lays out the first tableau of a sheet that passed its check on a board that holds no amount yet,
// with the costs of its lanes by column.
pub fn begin_sheet(
    supply: &[u64],
    demand: &[u64],
    cost: &[i64],
    board: &mut Board,
    spread: &mut [Price; LANES],
) -> Parties
    requires accepted { Accepted (sheet_of supply.now demand.now cost.now) }
    requires empty { Empty board.old.amounts.q board.old.amounts.e }
    ensures admitted { let S = sheet_of supply.now demand.now cost.now in
        Admitted S (start (problem_of S)) result board.new spread.new }
    ensures parties { PartiesOf (sheet_of supply.now demand.now cost.now) result }
    ensures same_cuts { SameCuts board.old.basis board.new.basis }
{
    let first = deal_sheet(supply, demand);
    let parties = first.parties;
    spread_costs(
        cost,
        demand.len(),
        parties.row_numbers(),
        parties.cafe_numbers(),
        spread,
    );
    lay_out(first.tableau, parties.rows, parties.columns, board);
    parties
}
