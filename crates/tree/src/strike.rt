// Striking off leaves: a node with a single lane is taken away with that lane, again and again. The lanes join all nodes without a loop exactly if m + n - 1
// are struck. Nodes and lanes are numbered as in lib.rt: source i is node i, sink j is node m + j, and node 0 is the root, which is never struck.
ghost use Rattle.std.specs.Prelude.{◌≡◌, cond, List, ◌+◌, ◌<◌, ◌≤◌, length};
ghost use Rattle.transport.specs.Problem.{Lane};
ghost use Rattle.tree.specs.Layout.{stride, node_room};
ghost use Rattle.tree.specs.Basis.{struck_off, SameCuts};
ghost use Rattle.tree.specs.Links.{Links, Masks, other_end_of, own_bit_of, lane_to_of, joins};
ghost use Rattle.tree.specs.Queue.{Queue};
ghost use Rattle.tree.specs.Strip.{Stripped};

use crate::{Basis, NODES, mask};
use transport::MAX_SIDE;

// The node at the other end of a node's lane.
fn other_end(node: usize, bit: usize, m: usize) -> usize
    requires { (m ≤ stride) × (bit < node_room) }
    ensures { result ≡ other_end_of m node bit }
{
    if node < m { m + bit } else { bit }
}

// The bit that stands for the node in the mask at the other end.
fn own_bit(node: usize, m: usize) -> usize
    ensures { result ≡ own_bit_of m node }
{
    if node < m { node } else { node - m }
}

// The place of a node's lane.
fn lane_to(node: usize, bit: usize, m: usize) -> usize
    requires { (m ≤ stride) × (node < node_room) × (bit < node_room) }
    ensures { result ≡ lane_to_of m node bit }
{
    if node < m {
        node * MAX_SIDE + bit
    } else {
        bit * MAX_SIDE + (node - m)
    }
}

// 1 if the node is to be queued, as a leaf that is not the root; else 0.
fn joins_queue(node: usize, lanes: u64) -> usize
    ensures { result ≡ cond (joins node lanes) 1 0 }
{
    usize::from(node != 0 && mask::is_single(lanes))
}

// Queues the leaves that there are from the start, in the order of the nodes.
fn first_leaves(live: &[u64; NODES], leaf: &mut [usize; NODES], m: usize, n: usize) -> usize
    requires { Links m n live.now }
    ensures { (length leaf.new ≡ node_room) × Queue (m + n) live.now leaf.new 0 result }
{
    let mut tail = 0;
    for node in 1..m + n {
        leaf[tail] = node;
        tail += joins_queue(node, live[node]);
    }
    tail
}

impl Basis {
    // Strikes off leaves in the order in which they become leaves, and says how many. Strike k is
    // the leaf, the node at the other end and the place of the lane. `leaf` is the queue too: what
    // is struck stands before k, what waits from k up to tail. A node that waits can lose its lane
    // to its neighbour's strike only where the two are cut off from the root; then the lanes do not
    // join all nodes, and striking ends.
    pub fn strike(&mut self, adj: &[u64; NODES], m: usize, n: usize) -> usize
        requires { Links m n adj.now }
        ensures leaf_len { let b = self.new in
            (length b.leaf ≡ node_room) × (length b.other ≡ node_room) × (length b.lane ≡ node_room) }
        ensures stripped { (B : List Lane) → Masks m n B adj.now
            → Stripped m n B (struck_off self.new result) result }
        ensures same_cuts { SameCuts self.old self.new }
    {
        let mut live = *adj;
        let mut tail = first_leaves(adj, &mut self.leaf, m, n);
        let mut k = 0;
        // A while: the queue grows as it is gone through, so that no range holds its end.
        while k < tail {
            let node = self.leaf[k];
            let lanes = live[node];
            if lanes == 0 {
                return k;
            }
            let bit = mask::first_bit(lanes);
            let end = other_end(node, bit, m);
            let rest = mask::clear_bit(live[end], own_bit(node, m));
            self.other[k] = end;
            self.lane[k] = lane_to(node, bit, m);
            live[node] = 0;
            live[end] = rest;
            self.leaf[tail] = end;
            tail += joins_queue(end, rest);
            k += 1;
        }
        k
    }
}
