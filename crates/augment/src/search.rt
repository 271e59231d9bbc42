// The search for bags to bring onto a lane from later lanes of its row: over tight lanes, through later rows that have bags to give in exchange.
ghost use Rattle.std.specs.Prelude.{◌≡◌, true, ℕ, ◌<◌};
ghost use Rattle.integers.specs.Integer.{Z};
ghost use Rattle.tree.specs.Layout.{stride};
ghost use Rattle.tree.specs.Mask.{has};
ghost use Rattle.tree.specs.Bits.{Touched};
ghost use Rattle.augment.specs.Sought.{Sought, Gathered};
ghost use Rattle.augment.specs.Answer.{Answers};

use crate::bags::Bags;
use crate::way::{Goal, Way};
use transport::MAX_SIDE;
use tree::mask::{clear_bit, first_bit, rest, set_bit, without};

// The tight lanes among m rows and n columns: of each row, the mask of its columns.
#[derive(Clone, Copy)]
pub struct TightLanes<'a> {
    pub rows: &'a [u64; MAX_SIDE],
    pub m: usize,
    pub n: usize,
}

// What is sought: bags for lane (row, col). `later` are the rows after it, `goal` the later columns where the row has bags, and `dead` columns from which
// earlier searches for the row came to no goal.
#[derive(Clone, Copy)]
pub struct Target {
    pub row: usize,
    pub col: usize,
    pub later: u64,
    pub goal: u64,
    pub dead: u64,
}

// The positions that are reached, and for each column l that is reached the position from[l] that
// it hangs on.
#[derive(Drop)]
pub struct Search {
    pub way: Way,
    pub from: [usize; MAX_SIDE],
}

// from[l] = at for each column l of the mask. Gives the rows with bags on one of them.
fn reach(from: &mut [usize; MAX_SIDE], holds: &[u64; MAX_SIDE], cols: u64, at: usize) -> u64
    requires { (l : ℕ) → has cols l ≡ true → l < stride }
    ensures touched { Touched (λ (y : ℕ). at) 0 from.old cols from.new }
    ensures gathered { Gathered holds.now cols result }
{
    let mut rows: u64 = 0;
    let mut left = cols;
    while left > 0 {
        let l = first_bit(left);
        from[l] = at;
        rows |= holds[l];
        left = rest(left);
    }
    rows
}

impl Search {
    // A goal that is reached, or else the columns from which none is. `left` are the rows not yet
    // reached, `rows` those of them with bags on a column that is.
    pub fn find_goal(&mut self, bags: &Bags, tight: TightLanes, target: Target) -> Result<Goal, u64>
        requires { (x : ℕ → ℕ → Z) × Sought tight.m tight.n target x tight.rows.now bags.now.holds bags.now.owns }
        ensures { let t = tight.entry in (x : ℕ → ℕ → Z)
            → Sought t.m t.n target x t.rows.now bags.now.holds bags.now.owns
            → Answers t.m t.n target x t.rows.now result self.new.way }
    {
        let b = target.col;
        self.way.row[0] = target.row;
        self.from[b] = 0;
        let mut cols = set_bit(0, b);
        let mut left = target.later;
        let mut rows = bags.holds[b] & left;
        let mut count = 1;
        // A while: it ends by the rows that are left; `count` numbers the positions.
        while rows > 0 {
            let i = first_bit(rows);
            let j = first_bit(bags.owns[i] & cols);
            self.way.row[count] = i;
            self.way.col[count] = j;
            self.way.up[count] = self.from[j];
            let fresh = without(tight.rows[i], cols | target.dead);
            let hit = fresh & target.goal;
            if hit > 0 {
                return Ok(Goal {
                    position: count,
                    column: first_bit(hit),
                });
            }
            cols |= fresh;
            left = clear_bit(left, i);
            rows = (rows | reach(&mut self.from, &bags.holds, fresh, count)) & left;
            count += 1;
        }
        Err(cols | target.dead)
    }
}
