// The tight lanes, on which settling moves bags: those of reduced cost 0, so of least cost together.
#![tactic(auto)]

ghost use Rattle.std.specs.Prelude.{◌<◌};
ghost use Rattle.tight.specs.Tight.{Ranged, TightRow, TightLanes};

use transport::MAX_SIDE;
use tree::mask::set_bit;
use tree::{LANES, NODES, Price};

// The columns of row i, of n, where the reduced cost is 0.
fn tight_in_row(cost: &[Price; LANES], price: &[Price; NODES], m: usize, n: usize, i: usize) -> u64
    requires ranged { Ranged cost.now price.now m n }
    requires i_lt_m { i < m }
    ensures { TightRow cost.now price.now m i n result }
{
    let own = price[i];
    let mut tight: u64 = 0;
    for j in 0..n {
        if cost[j * MAX_SIDE + i] - price[m + j] == own {
            tight = set_bit(tight, j);
        }
    }
    tight
}

// Bit j of row i says whether the reduced cost of lane (i, j) is 0.
pub fn tight_lanes(
    cost: &[Price; LANES],
    price: &[Price; NODES],
    tight: &mut [u64; MAX_SIDE],
    m: usize,
    n: usize,
)
    requires { Ranged cost.now price.now m n }
    ensures { TightLanes cost.now price.now m n m tight.new }
{
    *tight = [0; MAX_SIDE];
    for i in 0..m {
        tight[i] = tight_in_row(cost, price, m, n, i);
    }
}
