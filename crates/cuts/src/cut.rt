// The fundamental cuts of a spanning tree as masks, kept from round to round. The basic lanes stand in slots; for each slot `sub` has the nodes that its lane
// cuts off from the root, and for each node `path` has the slots on its path to the root. An exchange of lanes turns over one part of each.
ghost use Rattle.std.specs.Prelude.{◌≡◌, true, List, ℕ, ◌+◌, ◌-◌, ◌/◌, ◌<◌, ◌≤◌, length, get_or};
ghost use Rattle.transport.specs.Problem.{Lane};
ghost use Rattle.tableaux.specs.Striking.{Struck};
ghost use Rattle.tree.specs.Mask.{has};
ghost use Rattle.tree.specs.Layout.{stride, node_room};
ghost use Rattle.tree.specs.Basis.{struck_off, SameStrikes, SameEnds};
ghost use Rattle.tree.specs.Bits.{Grafted};
ghost use Rattle.cuts.specs.Planting.{Order, Hanging, Turning, Tree};
ghost use Rattle.cuts.specs.Cycle.{on_loop, LoopSlots};
ghost use Rattle.cuts.specs.Exchange.{Regrafted};

use transport::MAX_SIDE;
use tree::{Basis, NODES, mask};

// Turns over the bits of x in each mask whose place is a bit of `at`.
fn graft(masks: &mut [u64; NODES], at: u64, x: u64)
    ensures { Grafted masks.old at x masks.new }
{
    let mut bits = at;
    while bits != 0 {
        let k = mask::first_bit(bits);
        masks[k] ^= x;
        bits = mask::rest(bits);
    }
}

// The path of each node, back through the strikes: a leaf's is its own slot and the path of the node at the other end.
fn hang(leaf: &[usize; NODES], other: &[usize; NODES], count: usize, path: &mut [u64; NODES])
    requires { Order leaf.now other.now count }
    ensures { Hanging leaf.now other.now count path.new 0 }
{
    *path = [0; NODES];
    for k in (0..count).rev() {
        let p = leaf[k];
        let o = other[k];
        path[p] = mask::set_bit(path[o], k);
    }
}

// For each slot the nodes that have it on their path.
fn turn_over(path: &[u64; NODES], nodes: usize, sub: &mut [u64; NODES])
    requires { nodes ≤ node_room }
    ensures { Turning path.now nodes sub.new }
{
    *sub = [0; NODES];
    for p in 0..nodes {
        graft(sub, path[p], mask::set_bit(0, p));
    }
}

// The tree of the strikes: strike k becomes slot k.
pub fn plant(basis: &mut Basis, m: usize, n: usize)
    requires struck { (B : List Lane) × Struck m n B (struck_off basis.old (m + n - 1)) }
    requires le_m { (1 ≤ m) × (m ≤ stride) × (n ≤ stride) }
    ensures tree { (B : List Lane) → Struck m n B (struck_off basis.old (m + n - 1))
        → Tree m n B basis.new.sub basis.new.path basis.new.lane }
    ensures same_strikes { SameStrikes basis.old basis.new }
{
    hang(&basis.leaf, &basis.other, m + n - 1, &mut basis.path);
    turn_over(&basis.path, m + n, &mut basis.sub);
}

// The slots of a loop: those whose lane loses the step, and those whose lane gains it.
#[derive(Clone, Copy)]
pub struct Loop {
    pub minus: u64,
    pub plus: u64,
}

// The loop that an entering lane from the node `row` to the node `sink` closes: the slots on one of
// the two paths. A lane of it loses the step where its row lies on the same side of its cut as `row`.
pub fn loop_slots(basis: &Basis, row: usize, sink: usize) -> Loop
    requires row_lt_node_room { (row < node_room) × (sink < node_room) }
    requires by_index { (t : ℕ) → has (on_loop basis.now.path row sink) t ≡ true
        → get_or basis.now.lane t 0 / stride < node_room }
    ensures { LoopSlots basis.now.path basis.now.lane row sink result.minus result.plus }
{
    let own = basis.path[row];
    let cycle = own ^ basis.path[sink];
    // The slots of the loop whose lane has its row on the far side.
    let mut far = 0;
    let mut bits = cycle;
    while bits != 0 {
        let t = mask::first_bit(bits);
        let l = basis.lane[t];
        far |= basis.path[l / MAX_SIDE] & mask::set_bit(0, t);
        bits = mask::rest(bits);
    }
    let plus = cycle & (far ^ own);
    Loop {
        minus: cycle ^ plus,
        plus,
    }
}

// The lane of slot s gives way to the one at `into`, from the node `row` to the node `sink`. Gives
// the nodes on the far side of the slot's cut.
pub fn regraft(basis: &mut Basis, row: usize, sink: usize, s: usize, into: usize) -> u64
    requires { (row < node_room) × (sink < node_room) × (s < node_room) }
    ensures regrafted { let old = basis.old in let new = basis.new in
        Regrafted row sink s into old.sub old.path old.lane new.sub new.path new.lane result }
    ensures same_ends { SameEnds basis.old basis.new }
{
    let moved = basis.sub[s];
    let change = mask::clear_bit(basis.path[row] ^ basis.path[sink], s);
    graft(&mut basis.path, moved, change);
    graft(&mut basis.sub, change, moved);
    basis.lane[s] = into;
    moved
}
