// The pivot of a round: a lane enters the basis, the step goes round the loop that it closes, and the lane that held the step leaves.
ghost use Rattle.std.specs.Prelude.{List, ℕ};
ghost use Rattle.transport.specs.Problem.{Problem};
ghost use Rattle.transport.specs.declared.Cell.{Cell};
ghost use Rattle.tree.specs.Basis.{SameEnds};
ghost use Rattle.board.specs.OnBoard.{Holds};
ghost use Rattle.pivoting.specs.Pivoting.{Enters, PivotedOn};

use crate::step::{carry, least_slot};
use board::Board;
use cuts::cut::{loop_slots, regraft};
use transport::{MAX_SIDE, Pair};

// The lane from `row` to `col`, which is not basic, enters. Gives the nodes whose price moves.
pub fn pivot(board: &mut Board, m: usize, row: usize, col: usize) -> u64
    requires { (P : Problem) × (T : List Cell) × (n : ℕ) × Holds P T board.old m n × Enters P T row col }
    ensures pivoted { (P : Problem) (T : List Cell) (n : ℕ) → Holds P T board.old m n → Enters P T row col
        → PivotedOn P T m n row col board.new result }
    ensures same_ends { SameEnds board.old.basis board.new.basis }
{
    let sink = m + col;
    let into = row * MAX_SIDE + col;
    let cycle = loop_slots(&board.basis, row, sink);
    let losing = cycle.minus;
    let gaining = cycle.plus;
    let s = least_slot(board, losing);
    let step = board.amounts.pair_at(board.basis.lane[s]);
    let nothing = Pair { q: 0, e: 0 };
    carry(&mut board.amounts, &board.basis, losing, nothing - step);
    carry(&mut board.amounts, &board.basis, gaining, step);
    board.amounts.put_pair(into, step);
    regraft(&mut board.basis, row, sink, s, into)
}
