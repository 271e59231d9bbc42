// Runs: rounds made until a tableau is finished, or an allowance is spent.
ghost use Rattle.std.specs.Prelude.{true, List};
ghost use Rattle.transport.specs.Problem.{Problem};
ghost use Rattle.transport.specs.Round.{round_bound};
ghost use Rattle.transport.specs.declared.Cell.{Cell};
ghost use Rattle.tree.specs.Basis.{SameEnds};
ghost use Rattle.rounds.specs.OnBoard.{BegunOn};
ghost use Rattle.runs.specs.Runs.{EndedOn, RanOn};

use board::Board;
use pricing::scan::entering;
use rounds::round::{advance, begin};
use tree::{LANES, NODES, Price};

// How a run ended, and how many rounds it made. A struct and no enum: both ends have their rounds.
#[derive(Clone, Copy)]
pub struct Made {
    pub finished: bool,
    pub made: u64,
}

// Rounds up to the allowance. The board then holds the last tableau, and `price` its prices.
fn rounds(
    board: &mut Board,
    cost: &[Price; LANES],
    m: usize,
    n: usize,
    price: &mut [Price; NODES],
    allowance: u64,
) -> Made
    requires { (P : Problem) × (T : List Cell) × BegunOn P T board.old cost.now m n }
    ensures ran { (P : Problem) (T : List Cell) → BegunOn P T board.old cost.now m n
        → RanOn P T allowance board.new price.new m n result.finished result.made }
    ensures same_ends { SameEnds board.old.basis board.new.basis }
{
    let mut slack = begin(&mut board.basis, cost, m, n, price);
    for made in 0..allowance {
        if advance(board, cost, price, &mut slack, m, n) {
            return Made {
                finished: true,
                made,
            };
        }
    }
    // All are made: whether the last tableau is finished is still to be told.
    Made {
        finished: entering(cost, price, &slack, m, n).is_none(),
        made: allowance,
    }
}

// The run on a tableau of m sources and n sinks: how it ended. The board then holds its last tableau.
pub fn make_run(
    board: &mut Board,
    cost: &[Price; LANES],
    m: usize,
    n: usize,
    allowance: u64,
) -> Made
    requires { (P : Problem) × (T : List Cell) × BegunOn P T board.old cost.now m n }
    ensures ended { (P : Problem) (T : List Cell) → BegunOn P T board.old cost.now m n
        → EndedOn P T allowance board.new m n result.finished result.made }
    ensures same_ends { SameEnds board.old.basis board.new.basis }
{
    let mut price: [Price; NODES] = [0; NODES];
    rounds(board, cost, m, n, &mut price, allowance)
}

// Rounds until the tableau is finished, however many: how many they were. The board then holds the
// finished tableau, and `price` its prices.
pub fn finish(
    board: &mut Board,
    cost: &[Price; LANES],
    m: usize,
    n: usize,
    price: &mut [Price; NODES],
) -> u64
    requires { (P : Problem) × (T : List Cell) × BegunOn P T board.old cost.now m n }
    ensures ran { (P : Problem) (T : List Cell) → BegunOn P T board.old cost.now m n
        → RanOn P T (round_bound P) board.new price.new m n true result }
    ensures same_ends { SameEnds board.old.basis board.new.basis }
{
    let mut slack = begin(&mut board.basis, cost, m, n, price);
    let mut made = 0;
    // A while: no count ends it, but a measure that falls with each round.
    while !advance(board, cost, price, &mut slack, m, n) {
        made += 1;
    }
    made
}
