// Edits of a standing sheet, on its lists.
#![tactic(auto)]

pub mod solve;

ghost use Rattle.transport.specs.Sheet.{sheet_of};
ghost use Rattle.editing.specs.EditedAs.{EditedAs};

use crate::solve::{Edited, carry_out};
use board::Board;
use edit_steps::lists::{may_edit, set_lists};
use loading::load_finished;
use transport::{Edit, Refusal, Tableau};
use tree::LANES;

// An edit of the standing sheet of these lists, this tableau and this counter. The lists then hold
// the edited sheet. An edit that is refused leaves them as they were, or is taken back, and the
// tableau still stands.
pub fn edit_lists(
    supply: &mut [u64],
    demand: &mut [u64],
    cost: &mut [i64],
    t: Tableau,
    counter: u64,
    edit: Edit,
    u: &mut [i64],
    v: &mut [i64],
    plan: &mut [u64],
) -> Result<Edited, Refusal>
    ensures { let S = sheet_of supply.old demand.old cost.old in
        let S' = sheet_of supply.new demand.new cost.new in
        EditedAs (record { sheet = S; tableau = t; counter = counter }) edit result S'
        u.old u.new v.old v.new plan.old plan.new }
{
    let mut board = Board::new();
    let mut spread = [0; LANES];
    let parties = load_finished(supply, demand, cost, t, &mut board, &mut spread)?;
    if !may_edit(supply.len(), demand.len(), edit.row, edit.col, counter) {
        return Err(Refusal::BadEdit);
    }
    let back = set_lists(edit, supply, demand, cost);
    let done = carry_out(
        supply,
        demand,
        cost,
        edit,
        parties,
        &mut board,
        &mut spread,
        u,
        v,
        plan,
    );
    if done.is_err() {
        set_lists(back, supply, demand, cost);
    }
    done
}
