// The scan for the lane that enters. Of each row the least slack (a lane's cost less its sink's potential) is kept between rounds. The minima go by value, and
// the loop that takes a column into them goes over all rows that there is room for: so the compiler turns it into vector code, with the minima in registers.
ghost use Rattle.std.specs.Prelude.{◌≡◌, List, true, ℕ, ◌+◌, ◌<◌, ◌≤◌, ◌^◌, ℤ, pos, nat_abs, get_or};
ghost use Rattle.transport.specs.Limits.{cost_above};
ghost use Rattle.tree.specs.Layout.{stride, max_potential, slack_at};
ghost use Rattle.tree.specs.Mask.{has};
ghost use Rattle.pricing.specs.Lowest.{lowest, FirstOf};
ghost use Rattle.pricing.specs.Slacks.{InRange, Slacks, Changed, lowering, raising, Relaxed, Stale};
ghost use Rattle.pricing.specs.Scan.{row_reduced, RowsFit, Scanned};

use transport::MAX_SIDE;
use tree::{LANES, MAX_POTENTIAL, NODES, Price, mask};

// Greater than every slack, also one that is raised by a reduced cost: where a minimum starts.
const FAR: Price = 4 * MAX_POTENTIAL;

// The minima of all rows with column j, whose sink has the potential v, taken in.
fn take_column(
    cost: &[Price; LANES],
    j: usize,
    v: Price,
    slack: [Price; MAX_SIDE],
) -> [Price; MAX_SIDE]
    requires { (j < stride) × (nat_abs v ≤ max_potential) × ((l : ℕ) → nat_abs (get_or cost.now l (pos 0)) ≤ cost_above) }
    ensures { Changed (lowering cost.now j v) slack result }
{
    let mut least = slack;
    for i in 0..MAX_SIDE {
        least[i] = least[i].min(cost[j * MAX_SIDE + i] - v);
    }
    least
}

// The minima of all rows with the columns `cols` taken in.
fn relax_slacks(
    cost: &[Price; LANES],
    price: &[Price; NODES],
    m: usize,
    cols: u64,
    slack: [Price; MAX_SIDE],
) -> [Price; MAX_SIDE]
    requires { (n : ℕ) × InRange cost.now price.now m n × ((j : ℕ) → has cols j ≡ true → j < n) }
    ensures { Relaxed cost.now price.now m cols slack result }
{
    let mut least = slack;
    let mut bits = cols;
    while bits > 0 {
        let j = mask::first_bit(bits);
        bits = mask::rest(bits);
        // By a name: the proof is not made where a call's result goes straight into an array.
        let lower = take_column(cost, j, price[m + j], least);
        least = lower;
    }
    least
}

// The least slack of each row, whatever was known before.
pub fn scan_slacks(
    cost: &[Price; LANES],
    price: &[Price; NODES],
    m: usize,
    n: usize,
) -> [Price; MAX_SIDE]
    requires { InRange cost.now price.now m n }
    ensures { Slacks cost.now price.now m n result }
{
    relax_slacks(cost, price, m, mask::first_bits(n), [FAR; MAX_SIDE])
}

// All slacks raised by x.
fn raised(slack: [Price; MAX_SIDE], x: Price) -> [Price; MAX_SIDE]
    requires { (i : ℕ) → i < stride → nat_abs (get_or slack i (pos 0)) + nat_abs x < 2 ^ 31 }
    ensures { Changed (raising x) slack result }
{
    let mut higher = slack;
    for i in 0..MAX_SIDE {
        higher[i] += x;
    }
    higher
}

// The least slacks after a pivot in row `row`, which entered at the reduced cost `reduced` and moved the prices of the nodes `far`. Where the row is among
// them, the columns among them rose, and their slacks fell. Where it is not, the columns fell, and their slacks rose: against them, all others fell.
pub fn refresh_slacks(
    cost: &[Price; LANES],
    price: &[Price; NODES],
    m: usize,
    n: usize,
    far: u64,
    row: usize,
    reduced: Price,
    slack: [Price; MAX_SIDE],
) -> [Price; MAX_SIDE]
    requires in_range { InRange cost.now price.now m n }
    requires row_lt_m { row < m }
    requires stale { (old : List ℤ) × Stale cost.now old price.now m n far row reduced slack }
    ensures { Slacks cost.now price.now m n result }
{
    let moved = far >> m;
    if mask::has_bit(far, row) {
        return relax_slacks(cost, price, m, moved, slack);
    }
    let others = mask::first_bits(n) ^ moved;
    relax_slacks(cost, price, m, others, raised(slack, -reduced))
}

// The least reduced cost of all rows; 0 where none is negative. A row's is its least slack less the potential of its source.
fn least_reduced(price: &[Price; NODES], slack: &[Price; MAX_SIDE], m: usize) -> Price
    requires { RowsFit slack.now price.now m }
    ensures { result ≡ lowest (pos 0) (row_reduced slack.now price.now) m }
{
    let mut least: Price = 0;
    for i in 0..m {
        least = least.min(slack[i] - price[i]);
    }
    least
}

// The first row whose least reduced cost is at most `reduced`.
fn first_row(
    price: &[Price; NODES],
    slack: &[Price; MAX_SIDE],
    m: usize,
    reduced: Price,
) -> Option<usize>
    requires { RowsFit slack.now price.now m }
    ensures { FirstOf (row_reduced slack.now price.now) reduced m result }
{
    for row in 0..m {
        if slack[row] - price[row] <= reduced {
            return Some(row);
        }
    }
    None
}

// The first column whose slack in the row is at most `slack`.
fn first_column(
    cost: &[Price; LANES],
    price: &[Price; NODES],
    m: usize,
    n: usize,
    row: usize,
    slack: Price,
) -> Option<usize>
    requires in_range { InRange cost.now price.now m n }
    requires row_lt_m { row < m }
    ensures { FirstOf (slack_at cost.now price.now m row) slack n result }
{
    for col in 0..n {
        if cost[col * MAX_SIDE + row] - price[m + col] <= slack {
            return Some(col);
        }
    }
    None
}

// A lane with its reduced cost.
#[derive(Clone, Copy)]
pub struct PricedLane {
    pub row: usize,
    pub col: usize,
    pub reduced: Price,
}

// The entering lane: it has the least reduced cost, and is the first among equals; none where no
// reduced cost is negative.
pub fn entering(
    cost: &[Price; LANES],
    price: &[Price; NODES],
    slack: &[Price; MAX_SIDE],
    m: usize,
    n: usize,
) -> Option<PricedLane>
    requires in_range { InRange cost.now price.now m n }
    requires slacks { Slacks cost.now price.now m n slack.now }
    ensures { Scanned cost.now price.now m n result }
{
    let reduced = least_reduced(price, slack, m);
    if reduced >= 0 {
        return None;
    }
    // There is such a row, and such a column in it. By `unwrap_or`: with `unwrap` or `?` each turn
    // of a search has one to three instructions more.
    let row = first_row(price, slack, m, reduced).unwrap_or(m);
    let col = first_column(cost, price, m, n, row, slack[row]).unwrap_or(n);
    Some(PricedLane { row, col, reduced })
}
