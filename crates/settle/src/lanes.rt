// Lanes decided in sheet order: bags are brought onto a lane from later ones as long as there are any that can be, over tight lanes only, so at no cost. Lanes
// before it are left alone.
ghost use Rattle.std.specs.Prelude.{◌≡◌, ◌↔◌, true, ℕ, suc, ◌+◌, ◌*◌, ◌<◌, ◌≤◌};
ghost use Rattle.integers.specs.Integer.{Z};
ghost use Rattle.network.specs.Settling.{DecidedTo};
ghost use Rattle.tree.specs.Layout.{stride};
ghost use Rattle.augment.specs.Bags.{lane_bags, InMask};
ghost use Rattle.augment.specs.Sought.{SoughtIn};
ghost use Rattle.settle.specs.Stage.{Stage, Reaches, Dead};
ghost use Rattle.settle.specs.Rows.{OnlyBasics, Settleable};

use augment::bags::Bags;
use augment::search::{Search, Target, TightLanes};
use augment::way::Way;
use transport::MAX_SIDE;
use tree::mask::{first_bit, first_bits, has_bit, rest, without};
use tree::{LANES, NODES};

// Whether only basic lanes are tight, by the masks of basic lanes, so that there is no other plan on them.
fn only_basics(tight: &[u64; MAX_SIDE], basic: &[u64; NODES], m: usize) -> bool
    requires { m ≤ stride }
    ensures { (result ≡ true) ↔ OnlyBasics tight.now basic.now m }
{
    for i in 0..m {
        if without(tight[i], basic[i]) > 0 {
            return false;
        }
    }
    true
}

// Decides the target's lane, and gives the columns that are dead for the lanes after it.
fn decide(bags: &mut Bags, tight: TightLanes, target: Target, search: &mut Search) -> u64
    requires stage { (a : ℕ → Z) × (b : ℕ → Z)
        × Stage tight.m tight.n a b (target.row * tight.n + target.col) tight.rows.now bags.old }
    requires sought { SoughtIn tight.m tight.n target tight.rows.now bags.old }
    ensures dead { let t = tight.entry in
        Dead t.m t.n target.row (suc target.col) t.rows.now bags.new.by_lane.now result }
    ensures reaches { let t = tight.entry in let lane = target.row * t.n + target.col in
        Reaches t.m t.n lane (suc lane) t.rows.now bags.old bags.new }
{
    let mut goal = target.goal;
    while goal > 0 {
        match search.find_goal(bags, tight, Target { goal, ..target }) {
            Err(dead) => return dead,
            Ok(found) => {
                search.way.bring_least(bags, found);
                goal &= bags.owns[target.row];
            }
        }
    }
    target.dead
}

// Decides the lanes of row p. A lane that is not tight carries nothing, and nothing can be brought onto a lane if its column is dead, or if the row has no bags
// after it; then the row is done.
fn settle_row(bags: &mut Bags, tight: TightLanes, search: &mut Search, p: usize)
    requires stage { (a : ℕ → Z) × (b : ℕ → Z) × Stage tight.m tight.n a b (p * tight.n) tight.rows.now bags.old }
    requires p_lt_m { p < tight.m }
    ensures { let t = tight.entry in Reaches t.m t.n (p * t.n) (p * t.n + t.n) t.rows.now bags.old bags.new }
{
    let later = without(first_bits(tight.m), first_bits(p + 1));
    let mut dead = 0;
    let mut todo = tight.rows[p];
    while todo > 0 {
        let b = first_bit(todo);
        todo = rest(todo);
        let goal = bags.owns[p] & todo;
        if goal == 0 {
            return;
        }
        if !has_bit(dead, b) {
            let target = Target {
                row: p,
                col: b,
                later,
                goal,
                dead,
            };
            dead = decide(bags, tight, target, search);
        }
    }
}

// Decides all lanes. The bags lie on basic lanes at first.
pub fn settle_lanes(
    q: &mut [i64; LANES],
    tight: &[u64; MAX_SIDE],
    basic: &[u64; NODES],
    m: usize,
    n: usize,
)
    requires { (a : ℕ → Z) × (b : ℕ → Z) × Settleable m n a b tight.now basic.now q.old }
    ensures { (a b : ℕ → Z) → Settleable m n a b tight.now basic.now q.old
        → DecidedTo m n a b (InMask tight.now) (m * n) (lane_bags q.new) }
{
    if only_basics(tight, basic, m) {
        return;
    }
    let mut bags = Bags::on_basics(q, basic, m);
    let tight = TightLanes { rows: tight, m, n };
    let mut search = Search {
        way: Way {
            row: [0; NODES],
            col: [0; NODES],
            up: [0; NODES],
        },
        from: [0; MAX_SIDE],
    };
    for p in 0..m {
        settle_row(&mut bags, tight, &mut search, p);
    }
}
