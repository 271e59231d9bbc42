// Settle: from a finished tableau of a sheet to its settled plan.
#![tactic(auto)]

ghost use Rattle.std.specs.Prelude.{◌≡◌, length};
ghost use Rattle.transport.specs.Sheet.{sheet_of};
ghost use Rattle.transport.specs.Calls.{lent_after, settle_call};
ghost use Rattle.transport.specs.Answers.{settle_answer};

use board::Board;
use loading::load_sheet;
use plan_store::store_plan;
use rounds::round::is_finished;
use solving::finished::settle_board;
use transport::{Refusal, Tableau};
use tree::{LANES, NODES};

// Settle writes the quantities of the settled plan, one for each roastery and café of the sheet. Sheet check, then 6 if the tableau does not belong to the
// sheet, 7 if it is not finished, and 8 if the list is too short.
pub fn settle(
    supply: &[u64],
    demand: &[u64],
    cost: &[i64],
    t: Tableau,
    plan: &mut [u64],
) -> Result<(), Refusal>
    ensures { let S = sheet_of supply.now demand.now cost.now in
        let a = settle_call S t (length plan.old) in
        (result ≡ settle_answer a) × (plan.new ≡ lent_after (λ x. x) a plan.old) }
{
    let mut board = Board::new();
    let mut spread = [0; LANES];
    let parties = load_sheet(supply, demand, cost, t, &mut board, &mut spread)?;
    let m = parties.rows;
    let n = parties.columns;
    let mut price = [0; NODES];
    if !is_finished(&mut board.basis, &spread, m, n, &mut price) {
        return Err(Refusal::Unfinished);
    }
    let cafes = demand.len();
    if plan.len() < supply.len() * cafes {
        return Err(Refusal::TooShort);
    }
    settle_board(&mut board, &spread, &price, m, n);
    store_plan(
        &board.amounts.q,
        parties.row_numbers(),
        parties.cafe_numbers(),
        supply.len(),
        cafes,
        plan,
    );
    Ok(())
}
