// The front of a call that takes a tableau: the sheet check, then a refusal if the tableau does not
// belong to the sheet; and if nothing is refused, the tableau laid out for rounds.
#![tactic(auto)]

ghost use Rattle.transport.specs.Sheet.{sheet_of};
ghost use Rattle.transport.specs.Calls.{tableau_tests, inside, finished_tests};
ghost use Rattle.transport.specs.Statements.{Accepted};
ghost use Rattle.tree.specs.Basis.{SameCuts};
ghost use Rattle.board.specs.Held.{Empty};
ghost use Rattle.loading.specs.Loading.{LoadedBy};

use belonging::load;
use board::Board;
use cost_grid::spread_costs;
use numbering::renumber;
use parties::{Parties, number_parties};
use rounds::round::test_finished;
use transport::{Refusal, Tableau};
use tree::{LANES, Price};

// Of a sheet that passed its check: numbers the parties, and loads the tableau among those left, with
// the costs of their lanes by column.
fn load_tableau(
    supply: &[u64],
    demand: &[u64],
    cost: &[i64],
    t: Tableau,
    board: &mut Board,
    spread: &mut [Price; LANES],
) -> Result<Parties, Refusal>
    requires accepted { Accepted (sheet_of supply.now demand.now cost.now) }
    requires empty { Empty board.old.amounts.q board.old.amounts.e }
    ensures loaded { let S = sheet_of supply.now demand.now cost.now in
        LoadedBy S (tableau_tests S t) (inside S t) board.new spread.new result }
    ensures same_cuts { SameCuts board.old.basis board.new.basis }
{
    let parties = number_parties(supply, demand);
    let t = renumber(t, parties.row_numbers(), parties.column_numbers());
    if !load(parties.supplies(), parties.demands(), t, board) {
        return Err(Refusal::NotBelonging);
    }
    spread_costs(
        cost,
        demand.len(),
        parties.row_numbers(),
        parties.cafe_numbers(),
        spread,
    );
    Ok(parties)
}

// Tests sheet and tableau, and loads the tableau.
pub fn load_sheet(
    supply: &[u64],
    demand: &[u64],
    cost: &[i64],
    t: Tableau,
    board: &mut Board,
    spread: &mut [Price; LANES],
) -> Result<Parties, Refusal>
    requires { Empty board.old.amounts.q board.old.amounts.e }
    ensures loaded { let S = sheet_of supply.now demand.now cost.now in
        LoadedBy S (tableau_tests S t) (inside S t) board.new spread.new result }
    ensures same_cuts { SameCuts board.old.basis board.new.basis }
{
    sheet::check_sheet(supply, demand, cost)?;
    load_tableau(supply, demand, cost, t, board, spread)
}

// The same, with a refusal if the tableau is not finished.
pub fn load_finished(
    supply: &[u64],
    demand: &[u64],
    cost: &[i64],
    t: Tableau,
    board: &mut Board,
    spread: &mut [Price; LANES],
) -> Result<Parties, Refusal>
    requires { Empty board.old.amounts.q board.old.amounts.e }
    ensures loaded { let S = sheet_of supply.now demand.now cost.now in
        LoadedBy S (finished_tests S t) (inside S t) board.new spread.new result }
    ensures same_cuts { SameCuts board.old.basis board.new.basis }
{
    let parties = load_sheet(supply, demand, cost, t, board, spread)?;
    if !test_finished(&board.basis, spread, parties.rows, parties.columns) {
        return Err(Refusal::Unfinished);
    }
    Ok(parties)
}
