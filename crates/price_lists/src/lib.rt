// Prices as calls give them: those of the parties left at their own numbers, and those of struck ones by their rule.
#![tactic(auto)]

ghost use Rattle.std.specs.Prelude.{◌≡◌, cond, List, ◌++◌, ℕ, ◌+◌, ◌-◌, ◌<◌, ◌≤◌, ltb, nat_abs, ℤ, ◌-ℤ◌, length, drop};
ghost use Rattle.transport.specs.Limits.{max_side};
ghost use Rattle.transport.specs.Lists.{at, table, least_for};
ghost use Rattle.transport.specs.Sheet.{sheet_of};
ghost use Rattle.transport.specs.OwnNumbers.{roastery_prices, cafe_prices};
ghost use Rattle.transport.specs.declared.Cell.{Cell};
ghost use Rattle.price_lists.specs.PriceLists.{max_price, Costs, RowPrices, ColumnPrices, cost_in, rows_least, columns_least};
ghost use Rattle.price_lists.specs.PriceLists.{Placing, Placed, StruckPriced};
ghost use Rattle.price_lists.specs.Prices.{NodesPriced};

use transport::MAX_SIDE;
use tree::{NODES, Price};

// Writes prices at their own numbers: that of the node `from` + k at the k-th.
fn place_prices(price: &[Price; NODES], from: usize, own: &[usize], out: &mut [i64])
    requires { Placing price.now from own.now out.old }
    ensures { Placed price.now from own.now out.old out.new }
{
    for (k, &x) in own.iter().enumerate() {
        out[x] = price[from + k] as i64;
    }
}

// The cost of a lane less the price at one of its ends. A lane after the cafés, that of the extra one, costs nothing.
fn slack(cost: &[i64], cafes: usize, i: usize, j: usize, price: i64) -> i64
    requires { ((m : ℕ) × Costs m cafes cost.now × (i < m)) × (nat_abs price ≤ max_price) }
    ensures { result ≡ cost_in cost.now cafes i j -ℤ price }
{
    let lane = if j < cafes { cost[i * cafes + j] } else { 0 };
    lane - price
}

// The least of so many numbers.
fn least<F: Fn(usize) -> i64>(count: usize, number: F) -> i64
    requires some { 1 ≤ count }
    requires callable { (k : ℕ) → k < count → F.pre number k }
    ensures { (f : ℕ → ℤ) → ((k : ℕ) (z : ℤ) → k < count → F.post number k z → z ≡ f k)
        → result ≡ least_for (table count f) }
{
    let mut least = number(0);
    for k in 1..count {
        least = least.min(number(k));
    }
    least
}

// The price of a struck café: the least cost - u over the roasteries left.
fn cafe_price(cost: &[i64], cafes: usize, rows: &[usize], u: &[i64], j: usize) -> i64
    requires { (m : ℕ) × Costs m cafes cost.now × RowPrices m rows.now u.now }
    ensures { result ≡ rows_least cost.now cafes rows.now u.now j }
{
    least(rows.len(), |k| slack(cost, cafes, rows[k], j, u[rows[k]]))
}

// The price of a struck roastery: the least cost - v over all columns, which are `width`.
fn roastery_price(cost: &[i64], cafes: usize, v: &[i64; MAX_SIDE], width: usize, i: usize) -> i64
    requires { ((m : ℕ) × Costs m cafes cost.now × (i < m)) × ColumnPrices v.now width }
    ensures { result ≡ columns_least cost.now cafes v.now width i }
{
    least(width, |j| slack(cost, cafes, i, j, v[j]))
}

// Writes a price by the rule for each that has an amount of 0.
fn price_struck<F: Fn(usize) -> i64>(amounts: &[u64], price: &mut [i64], rule: F)
    requires callable { (k : ℕ) → k < length amounts.now → F.pre rule k }
    requires room { length amounts.now ≤ length price.old }
    ensures { (f : ℕ → ℤ) → ((k : ℕ) (z : ℤ) → k < length amounts.now → F.post rule k z → z ≡ f k)
        → StruckPriced amounts.now f 0 (length amounts.now) price.old price.new }
{
    for (k, &x) in amounts.iter().enumerate() {
        if x == 0 {
            price[k] = rule(k);
        }
    }
}

// The number of all columns: the extra café, where there is one, is the last of those left, and its own number comes after those of the cafés.
fn column_count(cols: &[usize], cafes: usize) -> usize
    requires { (1 ≤ length cols.now) × (at cols.now (length cols.now - 1) < max_side) }
    ensures { let last = at cols.now (length cols.now - 1) in result ≡ cond (ltb last cafes) cafes (last + 1) }
{
    let last = cols[cols.len() - 1];
    cafes.max(last + 1)
}

// Writes the prices of all roasteries and cafés, and leaves the rest of both lists as it is. `rows` and `cols` have the own numbers of the nodes, whose prices
// are given; struck cafés are priced before struck roasteries.
pub fn write_prices(
    supply: &[u64],
    demand: &[u64],
    cost: &[i64],
    rows: &[usize],
    cols: &[usize],
    price: &[Price; NODES],
    u: &mut [i64],
    v: &mut [i64],
)
    requires { ((T : List Cell) × NodesPriced (sheet_of supply.now demand.now cost.now) T rows.now cols.now price.now)
        × (length supply.now ≤ length u.old)
        × (length demand.now ≤ length v.old) }
    ensures { let S = sheet_of supply.now demand.now cost.now in
        ((T : List Cell)
        → NodesPriced S T rows.now cols.now price.now
        → (u.new ≡ roastery_prices S T ++ drop (length supply.now) u.old)
        × (v.new ≡ cafe_prices S T ++ drop (length demand.now) v.old)) }
{
    let cafes = demand.len();
    place_prices(price, 0, rows, u);
    // All columns have a price, the extra café too, which is not given.
    let mut placed = [0i64; MAX_SIDE];
    place_prices(price, rows.len(), cols, &mut placed);
    let mut columns = placed;
    price_struck(
        demand,
        &mut columns,
        |j| cafe_price(cost, cafes, rows, u, j),
    );
    let width = column_count(cols, cafes);
    price_struck(
        supply,
        u,
        |i| roastery_price(cost, cafes, &columns, width, i),
    );
    v[..cafes].copy_from_slice(&columns[..cafes]);
}
