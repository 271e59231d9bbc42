// The board of a run: a tableau spread over flat arrays, and gathered from them again.
#![tactic(auto)]

ghost use Rattle.std.specs.Prelude.{◌≡◌};
ghost use Rattle.tree.specs.Basis.{no_strikes};
ghost use Rattle.board.specs.Held.{Empty};

pub mod amount;
pub mod fit;
pub mod gather;
pub mod spread;

use crate::amount::Amounts;
use tree::{Basis, LANES};

// What rounds are made on: the amounts of a tableau, and its basis.
#[derive(Drop)]
pub struct Board {
    pub amounts: Amounts,
    pub basis: Basis,
}

impl Board {
    // (0, 0) on each lane, and no strikes.
    pub fn new() -> Board
        ensures empty { Empty result.amounts.q result.amounts.e }
        ensures no_strikes { result.basis ≡ no_strikes }
    {
        Board {
            amounts: Amounts {
                q: [0; LANES],
                e: [0; LANES],
            },
            basis: Basis::new(),
        }
    }
}
