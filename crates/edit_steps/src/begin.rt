// Where the rounds of an edit begin, laid out on the board.
ghost use Rattle.std.specs.Prelude.{◌≡◌, ◌&&◌, List, ℕ, ◌≤◌, eqb, ℤ, nat_abs, length, set, take};
ghost use Rattle.transport.specs.Limits.{max_cost};
ghost use Rattle.transport.specs.Problem.{place};
ghost use Rattle.transport.specs.Parties.{problem_of};
ghost use Rattle.transport.specs.Sheet.{Sheet, sheet_of};
ghost use Rattle.transport.specs.Tableau.{start};
ghost use Rattle.transport.specs.Statements.{Accepted};
ghost use Rattle.transport.specs.declared.Cell.{Cell};
ghost use Rattle.parties.specs.Parties.{PartiesOf};
ghost use Rattle.tree.specs.Layout.{lane_room};
ghost use Rattle.tree.specs.Basis.{SameCuts};
ghost use Rattle.numbering.specs.Numbers.{Growing};
ghost use Rattle.cost_grid.specs.Costs.{Spreadable, Spread};
ghost use Rattle.loading.specs.Loading.{Admitted};
ghost use Rattle.edit_steps.specs.Edits.{EditOf, beginning};
ghost use Rattle.edit_steps.specs.Respread.{Respreadable, AllLeft, SpreadBefore};

use board::Board;
use board::spread::lay_out;
use cost_grid::spread_costs;
use numbering::number_in;
use parties::Parties;
use solving::begin::deal_sheet;
use transport::{Change, Edit, MAX_SIDE};
use tree::{LANES, Price};

// Puts the new cost of one lane among the costs that are spread by column. `rows` and `cols` have
// the own numbers of the parties left; a struck party has no lane there.
#[tactic(auto, unfolding(transport::specs::Limits::max_side))]
fn respread_lane(
    row: usize,
    col: usize,
    c: i64,
    rows: &[usize],
    cols: &[usize],
    spread: &mut [Price; LANES],
)
    requires { Growing rows.now × Growing cols.now × (length spread.old ≡ lane_room) × (nat_abs c ≤ max_cost) }
    ensures { (cost : List ℤ) (cafes : ℕ) → Respreadable cost cafes rows.now cols.now row col c
        → Spread cost cafes rows.now cols.now spread.old
        → Spread (set cost (place cafes row col) c) cafes rows.now cols.now spread.new }
{
    let Some(i) = number_in(rows, row) else {
        return;
    };
    let Some(j) = number_in(cols, col) else {
        return;
    };
    spread[j * MAX_SIDE + i] = c as Price;
}

// Whether so many parties are left of m roasteries and n cafés that nobody is struck.
fn all_left(parties: &Parties, m: usize, n: usize) -> bool
    ensures { result ≡ eqb parties.now.rows m && eqb parties.now.cafes n }
{
    parties.rows == m && parties.cafes == n
}

// Spreads the costs of m roasteries and n cafés for those left, where before other parties were
// left. If nobody was struck and nobody is, the costs lie there already.
fn respread(
    cost: &[i64],
    m: usize,
    n: usize,
    before: &Parties,
    parties: &Parties,
    spread: &mut [Price; LANES],
)
    requires { Spreadable cost.now n (take parties.now.rows parties.now.row_numbers)
        (take parties.now.cafes parties.now.column_numbers) }
    ensures { let p = parties.now in
        let Right = Spread cost.now n (take p.rows p.row_numbers) (take p.cafes p.column_numbers) in
        ((AllLeft m n before.now.rows before.now.cafes → AllLeft m n p.rows p.cafes → Right spread.old)
        → Right spread.new) }
{
    if all_left(before, m, n) && all_left(parties, m, n) {
        return;
    }
    spread_costs(
        cost,
        n,
        parties.row_numbers(),
        parties.cafe_numbers(),
        spread,
    );
}

// Lays out the first tableau of a sheet that has new amounts, on the board of the sheet before. Of
// that sheet these parties were left.
fn begin_afresh(
    supply: &[u64],
    demand: &[u64],
    cost: &[i64],
    before: &Parties,
    board: &mut Board,
    spread: &mut [Price; LANES],
) -> Parties
    requires { Accepted (sheet_of supply.now demand.now cost.now) }
    ensures admitted { let S = sheet_of supply.now demand.now cost.now in
        (SpreadBefore S before.now spread.old → Admitted S (start (problem_of S)) result board.new spread.new) }
    ensures parties { PartiesOf (sheet_of supply.now demand.now cost.now) result }
    ensures same_cuts { SameCuts board.old.basis board.new.basis }
{
    let first = deal_sheet(supply, demand);
    let parties = first.parties;
    respread(cost, supply.len(), demand.len(), before, &parties, spread);
    board.amounts.q = [0; LANES];
    board.amounts.e = [0; LANES];
    lay_out(first.tableau, parties.rows, parties.columns, board);
    parties
}

// Lays out the tableau on which the rounds of an edit begin: its parties. The lists are those of
// the edited sheet, and the board holds the tableau of the sheet before, with these parties. A new
// cost goes on from it, and new amounts begin afresh.
pub fn begin_edit(
    supply: &[u64],
    demand: &[u64],
    cost: &[i64],
    edit: Edit,
    parties: Parties,
    board: &mut Board,
    spread: &mut [Price; LANES],
) -> Parties
    requires accepted { Accepted (sheet_of supply.now demand.now cost.now) }
    requires edit_of { (S : Sheet) × (T : List Cell) × EditOf S edit supply.now demand.now cost.now
        × Admitted S T parties board.old spread.old }
    ensures admitted { let S' = sheet_of supply.now demand.now cost.now in
        ((S : Sheet) (T : List Cell) → EditOf S edit supply.now demand.now cost.now
        → Admitted S T parties board.old spread.old
        → Admitted S' (beginning edit.change S' T) result board.new spread.new) }
    ensures parties { (S : Sheet) → EditOf S edit supply.now demand.now cost.now → PartiesOf S parties
        → PartiesOf (sheet_of supply.now demand.now cost.now) result }
    ensures same_cuts { SameCuts board.old.basis board.new.basis }
{
    match edit.change {
        Change::Cost(c) => {
            respread_lane(
                edit.row,
                edit.col,
                c,
                parties.row_numbers(),
                parties.cafe_numbers(),
                spread,
            );
            parties
        }
        Change::Amounts { .. } => begin_afresh(supply, demand, cost, &parties, board, spread),
    }
}
