// An edited sheet, refused or solved.
ghost use Rattle.std.specs.Prelude.{◌≡◌, Ok, List, ◌*◌, ◌≤◌, length};
ghost use Rattle.transport.specs.Sheet.{Sheet, sheet_of};
ghost use Rattle.transport.specs.Calls.{given, solution_from};
ghost use Rattle.transport.specs.Standing.{last_tableau_of};
ghost use Rattle.transport.specs.declared.Cell.{Cell};
ghost use Rattle.loading.specs.Loading.{Admitted};
ghost use Rattle.solving.specs.Told.{Told};
ghost use Rattle.edit_steps.specs.Edits.{EditOf, beginning};
ghost use Rattle.editing.specs.SolvedAs.{SolvedAs};

use board::Board;
use edit_steps::begin::begin_edit;
use edit_steps::lists::check_edited;
use parties::Parties;
use runs::run::finish;
use solving::cost::plan_cost;
use solving::room::missing_room;
use solving::store::{last_tableau, store_solution};
use transport::{Edit, Refusal, SolveAnswer, Tableau};
use tree::{LANES, NODES, Price};

// What came of an edit that is made: what solve answers for the edited sheet, with the rounds made
// by the edit; and the tableau that then stands.
#[derive(Clone, Copy)]
pub struct Edited {
    pub answer: SolveAnswer,
    pub tableau: Tableau,
}

// Solves a sheet from the tableau that is laid out. Prices and plan then stand in their lists.
fn solve_from(
    supply: &[u64],
    demand: &[u64],
    cost: &[i64],
    parties: &Parties,
    board: &mut Board,
    spread: &[Price; LANES],
    u: &mut [i64],
    v: &mut [i64],
    plan: &mut [u64],
) -> Edited
    requires admitted { (T : List Cell)
        × Admitted (sheet_of supply.now demand.now cost.now) T parties.now board.old spread.now }
    requires supply_in_bounds { (length supply.now ≤ length u.old)
        × (length demand.now ≤ length v.old)
        × (length supply.now * length demand.now ≤ length plan.old) }
    ensures { let S = sheet_of supply.now demand.now cost.now in
        ((T : List Cell) → Admitted S T parties.now board.old spread.now
        → Told (given (solution_from S T)) (Ok result.answer) u.old u.new v.old v.new
        plan.old plan.new
        × (result.tableau ≡ last_tableau_of S T)) }
{
    let mut price = [0; NODES];
    let rounds = finish(board, spread, parties.rows, parties.columns, &mut price);
    let tableau = last_tableau(parties, board);
    store_solution(
        supply, demand, cost, parties, board, spread, &price, u, v, plan,
    );
    let cost = plan_cost(plan, cost);
    Edited {
        answer: SolveAnswer { cost, rounds },
        tableau,
    }
}

// Solves the edited sheet from where its edit begins, unless solve refuses it.
pub(crate) fn carry_out(
    supply: &[u64],
    demand: &[u64],
    cost: &[i64],
    edit: Edit,
    parties: Parties,
    board: &mut Board,
    spread: &mut [Price; LANES],
    u: &mut [i64],
    v: &mut [i64],
    plan: &mut [u64],
) -> Result<Edited, Refusal>
    requires { (S : Sheet) × (T : List Cell) × EditOf S edit supply.now demand.now cost.now
        × Admitted S T parties board.old spread.old }
    ensures { let S' = sheet_of supply.now demand.now cost.now in
        ((S : Sheet) (T : List Cell) → EditOf S edit supply.now demand.now cost.now
        → Admitted S T parties board.old spread.old
        → SolvedAs S' (beginning edit.change S' T) result u.old u.new v.old v.new plan.old plan.new) }
{
    check_edited(supply, demand, cost, edit)?;
    if missing_room(u.len(), v.len(), plan.len(), supply.len(), demand.len()) > 0 {
        return Err(Refusal::TooShort);
    }
    let begun = begin_edit(supply, demand, cost, edit, parties, board, spread);
    Ok(solve_from(supply, demand, cost, &begun, board, spread, u, v, plan))
}
