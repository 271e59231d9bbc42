// Whether an edit may be made, what it sets in the lists of the sheet, and the check of the edited
// sheet.
ghost use Rattle.std.specs.Prelude.{◌≡◌, not, ◌&&◌, eqb, ltb};
ghost use Rattle.transport.specs.Sheet.{Sheet, sheet_of, sheet_tests, refusal};
ghost use Rattle.transport.specs.Standing.{edited, max_counter};
ghost use Rattle.sheet.specs.Check.{check_answer};
ghost use Rattle.edit_steps.specs.Edits.{Editable, EditOf};

use transport::{Change, Edit, MAX_COUNTER, Refusal};

// Whether an edit names a roastery and a café of a sheet of m and n, and can be counted.
#[tactic(auto, unfolding(transport::specs::Standing::max_counter))]
pub fn may_edit(m: usize, n: usize, row: usize, col: usize, counter: u64) -> bool
    ensures { result ≡ ltb row m && ltb col n && not (eqb counter max_counter) }
{
    row < m && col < n && counter != MAX_COUNTER
}

// Sets in the lists of a sheet what the edit says. Gives the edit that takes it back.
pub fn set_lists(e: Edit, supply: &mut [u64], demand: &mut [u64], cost: &mut [i64]) -> Edit
    requires { Editable e supply.old demand.old cost.old }
    ensures { let S = sheet_of supply.old demand.old cost.old in
        (sheet_of supply.new demand.new cost.new ≡ edited S e)
        × (edited (edited S e) result ≡ S)
        × (result.row ≡ e.row)
        × (result.col ≡ e.col) }
{
    let Edit { row, col, change } = e;
    let before = match change {
        Change::Cost(c) => {
            let l = row * demand.len() + col;
            let old = cost[l];
            cost[l] = c;
            Change::Cost(old)
        }
        Change::Amounts {
            supply: s,
            demand: d,
        } => {
            let old_supply = supply[row];
            let old_demand = demand[col];
            supply[row] = s;
            demand[col] = d;
            Change::Amounts {
                supply: old_supply,
                demand: old_demand,
            }
        }
    };
    Edit {
        row,
        col,
        change: before,
    }
}

// The sheet check of an edited sheet. What the edit leaves alone has passed.
pub fn check_edited(supply: &[u64], demand: &[u64], cost: &[i64], edit: Edit) -> Result<(), Refusal>
    requires { (S : Sheet) × EditOf S edit supply.now demand.now cost.now }
    ensures { let S = sheet_of supply.now demand.now cost.now in
        result ≡ check_answer (refusal (sheet_tests S)) }
{
    match edit.change {
        Change::Cost(_) => {
            let new = edit.row * demand.len() + edit.col;
            sheet::check_numbers(supply, demand, &cost[new..new + 1])
        }
        Change::Amounts { .. } => sheet::check_numbers(supply, demand, &[]),
    }
}
