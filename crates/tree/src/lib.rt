// The tree of a basis in flat arrays: masks of its lanes, its leaves struck off, and potentials.
// A lane (i, j) lies at i * MAX_SIDE + j, and its cost at j * MAX_SIDE + i. Nodes are numbered as in the specification: source i is node i, sink j is node
// m + j, and node 0 is the root.
#![tactic(auto)]

ghost use Rattle.std.specs.Prelude.{◌≡◌};
ghost use Rattle.tree.specs.Basis.{no_strikes};

pub mod mask;
pub mod potential;
pub mod strike;

// The room for nodes, and for lanes.
pub const NODES: usize = 2 * transport::MAX_SIDE;

pub const LANES: usize = transport::MAX_SIDE * transport::MAX_SIDE;

// A cost or a potential: wide enough for NODES costs together, many times over.
pub type Price = i32;

// No potential is greater: each strike adds a cost at most.
pub const MAX_POTENTIAL: Price = NODES as Price * transport::MAX_COST as Price;

// A basis: its strikes, and its tree as fundamental cuts. A lane of it stands in each slot.
#[derive(Drop)]
pub struct Basis {
    // Strike k: its leaf, the node at the other end, and the place of their lane, in slot k.
    pub leaf: [usize; NODES],
    pub other: [usize; NODES],
    pub lane: [usize; NODES],
    // For each node the slots on its path to the root, and for each slot the nodes that its lane
    // cuts off from the root.
    pub path: [u64; NODES],
    pub sub: [u64; NODES],
}

impl Basis {
    // No strikes, and no cuts.
    pub fn new() -> Basis
        ensures { result ≡ no_strikes }
    {
        Basis {
            leaf: [0; NODES],
            other: [0; NODES],
            lane: [0; NODES],
            path: [0; NODES],
            sub: [0; NODES],
        }
    }
}
