// The costs of a sheet's lanes between parties left, spread by column: that of row i and column j lies at j * MAX_SIDE + i.
#![tactic(auto)]

ghost use Rattle.cost_grid.specs.Costs.{Spreadable, Spread};

use parties::own_number;
use transport::MAX_SIDE;
use tree::{LANES, Price};

// `rows` and `cols` have the own numbers of the roasteries and the cafés that are left, of so many cafés. All else is 0: the lanes of an extra café, in the
// column after the last, and what is no lane, at which no scan looks.
pub fn spread_costs(
    cost: &[i64],
    cafes: usize,
    rows: &[usize],
    cols: &[usize],
    out: &mut [Price; LANES],
)
    requires { Spreadable cost.now cafes rows.now cols.now }
    ensures { Spread cost.now cafes rows.now cols.now out.new }
{
    *out = [0; LANES];
    let all = cols.len() == cafes;
    for (i, row) in rows.iter().enumerate() {
        let first = row * cafes;
        for j in 0..cols.len() {
            let col = own_number(cols, all, j);
            out[j * MAX_SIDE + i] = cost[first + col] as Price;
        }
    }
}
