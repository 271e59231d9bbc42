// A tableau spread over flat arrays: a mask of basic lanes for each node, and the amounts by lane.
ghost use Rattle.std.specs.Prelude.{◌≡◌, ℕ, ◌+◌, ◌*◌, ◌<◌, ◌≤◌, length, set, replicate};
ghost use Rattle.transport.specs.Tableau.{cells_of, basis_for};
ghost use Rattle.tableaux.specs.View.{Inside, Distinct};
ghost use Rattle.tree.specs.Layout.{stride, node_room};
ghost use Rattle.tree.specs.Basis.{struck_off, SameCuts};
ghost use Rattle.tree.specs.Strip.{Stripped};
ghost use Rattle.board.specs.Arrays.{Sides, Amounts as AmountsOf};
ghost use Rattle.board.specs.Cells.{cell_room};
ghost use Rattle.board.specs.Held.{Empty, Held, linked};

use crate::Board;
use crate::amount::Amounts;
use transport::{Cell, MAX_SIDE, Tableau};
use tree::{NODES, mask};

// The lane from `row` to `col` becomes basic: a bit in its row's mask, and one in its column's.
pub(crate) fn link(adj: &mut [u64; NODES], m: usize, row: usize, col: usize)
    requires { (row < m) × (m ≤ stride) × (col < stride) }
    ensures { adj.new ≡ linked m row col adj.old }
{
    adj[row] = mask::set_bit(adj[row], col);
    let sink = m + col;
    adj[sink] = mask::set_bit(adj[sink], row);
}

// A cell: its lane becomes basic, and its amount lies on the lane.
fn put_cell(c: Cell, m: usize, adj: &mut [u64; NODES], amounts: &mut Amounts)
    requires { (c.row < m) × (m ≤ stride) × (c.col < stride) }
    ensures { let place = c.row * stride + c.col in (adj.new ≡ linked m c.row c.col adj.old)
        × (amounts.new.q ≡ set amounts.old.q place c.amount.q)
        × (amounts.new.e ≡ set amounts.old.e place c.amount.e) }
{
    link(adj, m, c.row, c.col);
    amounts.put_pair(c.row * MAX_SIDE + c.col, c.amount);
}

// All cells of the tableau, from the last to the first, over arrays of zeros.
fn spread(t: Tableau, m: usize, adj: &mut [u64; NODES], amounts: &mut Amounts)
    requires { (t.count ≤ cell_room)
        × (m ≤ stride)
        × Inside m stride (cells_of t)
        × (adj.old ≡ replicate node_room 0)
        × Empty amounts.old.q amounts.old.e }
    ensures { (n : ℕ) → n ≤ stride → Held m n (cells_of t) adj.new amounts.new.q amounts.new.e }
{
    for k in (0..t.count).rev() {
        put_cell(t.cells[k], m, adj, amounts);
    }
}

// Lays the tableau out over the board, which holds no amount yet, and strikes off its basis: how
// many of its lanes were struck.
pub fn lay_out(t: Tableau, m: usize, n: usize, board: &mut Board) -> usize
    requires count_le_cell_room { (t.count ≤ cell_room) × Sides m n × Inside m n (cells_of t) × Distinct (cells_of t) }
    requires empty { Empty board.old.amounts.q board.old.amounts.e }
    ensures amounts { AmountsOf m n (cells_of t) board.new.amounts.q board.new.amounts.e }
    ensures long { length board.new.basis.lane ≡ node_room }
    ensures stripped { Stripped m n (basis_for (cells_of t)) (struck_off board.new.basis result) result }
    ensures same_cuts { SameCuts board.old.basis board.new.basis }
{
    let mut adj = [0; NODES];
    spread(t, m, &mut adj, &mut board.amounts);
    board.basis.strike(&adj, m, n)
}
