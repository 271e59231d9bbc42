// Potentials: the prices of the nodes.
ghost use Rattle.std.specs.Prelude.{◌≡◌, true, cond, ℕ, ◌+◌, ◌<◌, ◌≤◌, ◌^◌, pos, nat_abs, neg_ℤ, ◌+ℤ◌, length, get_or};
ghost use Rattle.transport.specs.Limits.{cost_above};
ghost use Rattle.transport.specs.Potential.{potential_by};
ghost use Rattle.tree.specs.Mask.{has};
ghost use Rattle.tree.specs.Bits.{Touched};
ghost use Rattle.tree.specs.Repriced.{Repriced};
ghost use Rattle.tree.specs.Layout.{stride, node_room, cost_of, StrikesInRoom};
ghost use Rattle.tree.specs.Basis.{struck_off};

use crate::{Basis, LANES, NODES, Price, mask};
use transport::MAX_SIDE;

impl Basis {
    // Back through the strikes: a leaf's potential is its lane's cost less the potential at the
    // other end; a node that is never struck, as the root, has 0.
    pub fn potentials(&self, cost: &[Price; LANES], count: usize, price: &mut [Price; NODES])
        requires strikes_in_room { StrikesInRoom self.now.leaf self.now.other self.now.lane count }
        requires by_index { (l : ℕ) → nat_abs (get_or cost.now l (pos 0)) ≤ cost_above }
        ensures { (length price.new ≡ node_room)
            × ((k : ℕ) → k < node_room
            → get_or price.new k (pos 0) ≡ potential_by (cost_of cost.now) (struck_off self.now count) k) }
    {
        *price = [0; NODES];
        for k in (0..count).rev() {
            let p = self.leaf[k];
            let o = self.other[k];
            let l = self.lane[k];
            price[p] = cost[l % MAX_SIDE * MAX_SIDE + l / MAX_SIDE] - price[o];
        }
    }
}

// Adds x to the price of each node of `at`.
fn raise(price: &mut [Price; NODES], at: u64, x: Price)
    requires price_len { length price.old ≡ node_room }
    requires by_index { (k : ℕ) → k < node_room → has at k ≡ true → nat_abs (get_or price.old k (pos 0)) + nat_abs x < 2 ^ 31 }
    ensures { Touched (λ z. z +ℤ x) (pos 0) price.old at price.new }
{
    let mut bits = at;
    while bits != 0 {
        let k = mask::first_bit(bits);
        price[k] += x;
        bits = mask::rest(bits);
    }
}

// How far the prices of the nodes of `far` move, so that the lane with that reduced cost, from `row`, becomes tight.
fn toward(far: u64, row: usize, reduced: Price) -> Price
    requires row_lt_node_room { row < node_room }
    requires reduced_bound { nat_abs reduced ≤ 2 ^ 29 }
    ensures { result ≡ cond (has far row) reduced (neg_ℤ reduced) }
{
    if mask::has_bit(far, row) {
        reduced
    } else {
        -reduced
    }
}

// The prices after an exchange of lanes: those of the nodes of `far` move, rows one way and columns the other.
pub fn reprice(price: &mut [Price; NODES], m: usize, far: u64, row: usize, reduced: Price)
    requires m_le_stride { (m ≤ stride) × (row < stride) × (nat_abs reduced ≤ 2 ^ 29) }
    requires price_len { (length price.old ≡ node_room) × ((k : ℕ) → k < node_room → nat_abs (get_or price.old k (pos 0)) ≤ 2 ^ 29) }
    ensures { Repriced m far (cond (has far row) reduced (neg_ℤ reduced)) price.old price.new }
{
    let x = toward(far, row, reduced);
    let rows = far & mask::first_bits(m);
    raise(price, rows, x);
    raise(price, far ^ rows, -x);
}
