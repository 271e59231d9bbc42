// Amounts by lane: the bags in one array, the marks in another.
ghost use Rattle.std.specs.Prelude.{◌≡◌, ◌<◌, set};
ghost use Rattle.tree.specs.Layout.{lane_room};
ghost use Rattle.board.specs.Slots.{pair_at};

use transport::Pair;
use tree::LANES;

// The bags and the marks on each lane.
#[derive(Drop)]
pub struct Amounts {
    pub q: [i64; LANES],
    pub e: [i64; LANES],
}

impl Amounts {
    // The pair on a lane.
    pub fn pair_at(&self, lane: usize) -> Pair
        requires { lane < lane_room }
        ensures { result ≡ pair_at self.now.q self.now.e lane }
    {
        Pair {
            q: self.q[lane],
            e: self.e[lane],
        }
    }

    // The lane then has this pair.
    pub fn put_pair(&mut self, lane: usize, x: Pair)
        requires { lane < lane_room }
        ensures { (self.new.q ≡ set self.old.q lane x.q) × (self.new.e ≡ set self.old.e lane x.e) }
    {
        self.q[lane] = x.q;
        self.e[lane] = x.e;
    }
}
