// The way that a search has found, from a goal over positions up to the root: it takes bags from the target's row at the goal, and brings them to the target.
ghost use Rattle.std.specs.Prelude.{ℕ, ◌<◌, ◌≤◌, nat_abs};
ghost use Rattle.network.specs.Search.{Rooted};
ghost use Rattle.transport.specs.Limits.{max_bags};
ghost use Rattle.tree.specs.Layout.{lane_room};
ghost use Rattle.augment.specs.Bags.{entry, Follow};
ghost use Rattle.augment.specs.Way.{Walkable, LeastOn, Carries, Brought, BroughtLeast};

use crate::bags::Bags;
use transport::MAX_SIDE;
use tree::{LANES, NODES};

// Position 0 is the target's row. Position k is the later row row[k], which has bags on column
// col[k]; that column is tight for the row at position up[k].
#[derive(Drop)]
pub struct Way {
    pub row: [usize; NODES],
    pub col: [usize; NODES],
    pub up: [usize; NODES],
}

// A position, and a goal to which its row has a tight lane.
#[derive(Clone, Copy)]
pub struct Goal {
    pub position: usize,
    pub column: usize,
}

impl Way {
    // Of the lanes that the way takes bags from, the place of one with the least.
    fn least_on(&self, q: &[i64; LANES], goal: Goal) -> usize
        requires { (m : ℕ) × (n : ℕ) × Walkable m n goal.position goal.column self.now }
        ensures in_room { result < lane_room }
        ensures least { (d : ℕ) → Rooted (entry self.now.up) goal.position d
            → LeastOn d goal.position goal.column self.now q.now result }
    {
        let mut least = self.row[0] * MAX_SIDE + goal.column;
        let mut at = goal.position;
        while at > 0 {
            let lane = self.row[at] * MAX_SIDE + self.col[at];
            if q[lane] < q[least] {
                least = lane;
            }
            at = self.up[at];
        }
        least
    }

    // Moves x bags along the way: at each position from its row to the row above.
    fn bring(&self, bags: &mut Bags, goal: Goal, x: i64)
        requires way { (m : ℕ) × (n : ℕ) × Carries m n goal.position goal.column self.now bags.old }
        requires few { nat_abs x ≤ max_bags }
        ensures brought { (d : ℕ) → Rooted (entry self.now.up) goal.position d
            → Brought d goal.position goal.column self.now x bags.old.by_lane.now bags.new.by_lane.now }
        ensures follow { Follow bags.old bags.new }
    {
        bags.shift(self.row[0], self.row[goal.position], goal.column, x);
        let mut at = goal.position;
        while at > 0 {
            let to = self.up[at];
            bags.shift(self.row[at], self.row[to], self.col[at], x);
            at = to;
        }
    }

    // Moves along the way as many bags as each lane has that it takes them from.
    pub fn bring_least(&self, bags: &mut Bags, goal: Goal)
        requires { (m : ℕ) × (n : ℕ) × Carries m n goal.position goal.column self.now bags.old }
        ensures brought { (d : ℕ) → Rooted (entry self.now.up) goal.position d
            → BroughtLeast d goal.position goal.column self.now bags.old.by_lane.now bags.new.by_lane.now }
        ensures follow { Follow bags.old bags.new }
    {
        let x = bags.by_lane[self.least_on(bags.by_lane, goal)];
        self.bring(bags, goal, x);
    }
}
