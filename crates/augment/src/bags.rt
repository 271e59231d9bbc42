// Bags by lane, with masks that say where there are any.
ghost use Rattle.std.specs.Prelude.{◌≡◌, true, cond, ◌&&◌, ℕ, ◌+◌, ◌*◌, ◌<◌, ◌^◌, eqb, pos, nat_abs, length, get_or};
ghost use Rattle.tree.specs.Layout.{stride, lane_room};
ghost use Rattle.tree.specs.Mask.{has, put};
ghost use Rattle.tree.specs.Bits.{Touched};
ghost use Rattle.augment.specs.Bags.{carries, MaskedBags, Follow, BagsShifted, OnBasics, added};

use transport::MAX_SIDE;
use tree::mask::{clear_bit, first_bit, rest, set_bit};
use tree::{LANES, NODES};

// The bags of each lane, and the masks: for each column the rows with bags on it (`holds`), and for
// each row the columns (`owns`).
#[derive(Drop)]
pub struct Bags<'a> {
    pub by_lane: &'a mut [i64; LANES],
    pub holds: [u64; MAX_SIDE],
    pub owns: [u64; MAX_SIDE],
}

impl<'a> Bags<'a> {
    // Bags that lie on basic lanes alone, by the masks of basic lanes.
    pub fn on_basics(q: &'a mut [i64; LANES], basic: &[u64; NODES], m: usize) -> Bags<'a>
        requires { (n : ℕ) × OnBasics m n basic.now q.old }
        ensures same_array { result.by_lane.ghost_name ≡ q.entry.ghost_name }
        ensures same_bags { result.by_lane.now ≡ q.old }
        ensures masked { (n : ℕ) → OnBasics m n basic.now q.old → MaskedBags m n result }
    {
        let mut holds = [0; MAX_SIDE];
        let mut owns = [0; MAX_SIDE];
        for i in 0..m {
            let cols = row_bags(q, basic[i], i);
            owns[i] = cols;
            hold(&mut holds, cols, i);
        }
        Bags {
            by_lane: q,
            holds,
            owns,
        }
    }

    // Moves x bags of column j from one row to another.
    pub(crate) fn shift(&mut self, from: usize, to: usize, j: usize, x: i64)
        requires inside { (from < stride) × (to < stride) × (j < stride) }
        requires long { length self.old.by_lane.now ≡ lane_room }
        requires few { (nat_abs (get_or self.old.by_lane.now (from * stride + j) (pos 0)) + nat_abs x < 2 ^ 62)
            × (nat_abs (get_or self.old.by_lane.now (to * stride + j) (pos 0)) + nat_abs x < 2 ^ 62) }
        ensures bags_shifted { BagsShifted from to j x self.old.by_lane.now self.new.by_lane.now }
        ensures follow { Follow self.old self.new }
    {
        let less = add(self.by_lane, from, j, -x);
        let more = add(self.by_lane, to, j, x);
        self.holds[j] = with_bit(with_bit(self.holds[j], from, less), to, more);
        self.owns[from] = with_bit(self.owns[from], j, less);
        self.owns[to] = with_bit(self.owns[to], j, more);
    }
}

// Adds x to the bags on lane (i, j), and says whether there are any then.
fn add(q: &mut [i64; LANES], i: usize, j: usize, x: i64) -> bool
    requires inside { (i < stride) × (j < stride) }
    requires few { nat_abs (get_or q.old (i * stride + j) (pos 0)) + nat_abs x < 2 ^ 63 }
    ensures sum { q.new ≡ added q.old i j x }
    ensures some { result ≡ carries q.new i j }
{
    let lane = i * MAX_SIDE + j;
    q[lane] += x;
    q[lane] > 0
}

// The mask with bit k in it if `on`, and without it if not.
fn with_bit(mask: u64, k: usize, on: bool) -> u64
    requires { k < 64 }
    ensures { (h : ℕ) → has result h ≡ cond (eqb h k) on (has mask h) }
{
    if on {
        set_bit(mask, k)
    } else {
        clear_bit(mask, k)
    }
}

// Of the basic columns of row i, those with bags.
fn row_bags(q: &[i64; LANES], basic: u64, i: usize) -> u64
    requires { (i < stride) × ((j : ℕ) → has basic j ≡ true → j < stride) }
    ensures { (j : ℕ) → has result j ≡ has basic j && carries q.now i j }
{
    let mut cols: u64 = 0;
    let mut left = basic;
    while left > 0 {
        let j = first_bit(left);
        cols = with_bit(cols, j, q[i * MAX_SIDE + j] > 0);
        left = rest(left);
    }
    cols
}

// Puts row i into the masks of the columns `cols`.
fn hold(holds: &mut [u64; MAX_SIDE], cols: u64, i: usize)
    requires row_inside { i < stride }
    requires cols_inside { (j : ℕ) → has cols j ≡ true → j < stride }
    ensures { Touched (λ (y : ℕ). put y i) 0 holds.old cols holds.new }
{
    let mut left = cols;
    while left > 0 {
        let j = first_bit(left);
        holds[j] = set_bit(holds[j], i);
        left = rest(left);
    }
}
