// The weights at the nodes whose flows the bags and the marks of a tableau are.
ghost use Rattle.std.specs.Prelude.{◌≡◌, ◌+◌, ◌<◌, ◌≤◌, length};
ghost use Rattle.transport.specs.Lists.{at};
ghost use Rattle.tree.specs.Layout.{stride, node_room};
ghost use Rattle.belonging.specs.Balance.{Weights, mark_of};
ghost use Rattle.belonging.specs.Weighing.{Modest, PutFrom};

use tree::NODES;

// Puts the amounts into the array, from place `from` on.
fn put_from(amounts: &[u64], from: usize, weight: &mut [i64; NODES])
    requires modest { Modest amounts.now }
    requires amounts_bound { from + length amounts.now ≤ node_room }
    ensures { PutFrom amounts.now from weight.old weight.new (length amounts.now) }
{
    for (k, &x) in amounts.iter().enumerate() {
        weight[from + k] = x as i64;
    }
}

// Bags: each supply at its row's node, each demand at its column's.
pub(crate) fn weigh_bags(supply: &[u64], demand: &[u64]) -> [i64; NODES]
    requires { Modest supply.now × Modest demand.now }
    ensures { Weights (length supply.now) (length demand.now)
        (at supply.now) (at demand.now) result }
{
    let mut weight = [0; NODES];
    put_from(supply, 0, &mut weight);
    put_from(demand, supply.len(), &mut weight);
    weight
}

// Marks: one at each row's node, and as many as there are rows at the last column's.
pub(crate) fn weigh_marks(m: usize, n: usize) -> [i64; NODES]
    requires { (m ≤ stride) × (1 ≤ n) × (n ≤ stride) }
    ensures { Weights m n (λ i. 1) (mark_of m n) result }
{
    let mut weight = [0; NODES];
    weight[..m].fill(1);
    weight[m + n - 1] = m as i64;
    weight
}
