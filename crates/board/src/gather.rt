// A tableau gathered from flat arrays: its lanes from the masks of the rows, in sheet order, and their amounts.
ghost use Rattle.std.specs.Prelude.{◌≡◌, List, ◌++◌, ℕ, ◌+◌, ◌/◌, ◌<◌, ◌≤◌, length, take, get_or};
ghost use Rattle.transport.specs.Problem.{Problem};
ghost use Rattle.transport.specs.Tableau.{tableau_of};
ghost use Rattle.transport.specs.declared.Cell.{Cell};
ghost use Rattle.tree.specs.Layout.{stride, node_room, lane_room};
ghost use Rattle.board.specs.OnBoard.{Shows};
ghost use Rattle.board.specs.Drawing.{Redrawn};
ghost use Rattle.board.specs.Lanes.{row_lanes_of, RowMasks, Lanes, gathered};

use crate::Board;
use crate::amount::Amounts;
use crate::spread::link;
use transport::{Cell, MAX_CELLS, MAX_SIDE, Pair, Tableau};
use tree::{Basis, NODES, mask};

// Behind the first `count` lanes come those of one more row, which begins at the lane `first`; the count then.
fn row_lanes(mask: u64, first: usize, lanes: &mut [usize; NODES], count: usize) -> usize
    requires { (count + length (row_lanes_of first mask) ≤ node_room) × (first ≤ lane_room) }
    ensures { (result ≡ count + length (row_lanes_of first mask))
        × (take result lanes.new ≡ take count lanes.old ++ row_lanes_of first mask) }
{
    let mut bits = mask;
    let mut k = count;
    // A while: it goes over the bits of a mask, and stores each where the one before ended.
    while bits != 0 {
        let j = mask::first_bit(bits);
        bits = mask::clear_bit(bits, j);
        lanes[k] = first + j;
        k += 1;
    }
    k
}

// The basic lanes of the first `m` rows, in sheet order; how many they are.
fn basic_lanes(adj: &[u64; NODES], m: usize, lanes: &mut [usize; NODES]) -> usize
    requires { RowMasks adj.now m }
    ensures { Lanes adj.now m lanes.new result }
{
    let mut count = 0;
    for i in 0..m {
        count = row_lanes(adj[i], i * MAX_SIDE, lanes, count);
    }
    count
}

// The cells on the basic lanes that the masks have.
fn gather_cells(adj: &[u64; NODES], amounts: &Amounts, m: usize) -> Tableau
    requires { RowMasks adj.now m }
    ensures { result ≡ tableau_of (gathered m adj.now amounts.now.q amounts.now.e) }
{
    let mut lanes = [0; NODES];
    let count = basic_lanes(adj, m, &mut lanes);
    let nothing = Pair { q: 0, e: 0 };
    let no_cell = Cell {
        row: 0,
        col: 0,
        amount: nothing,
    };
    let mut t = Tableau {
        cells: [no_cell; MAX_CELLS],
        count,
    };
    for k in 0..count {
        let l = lanes[k];
        t.cells[k] = Cell {
            row: l / MAX_SIDE,
            col: l % MAX_SIDE,
            amount: amounts.pair_at(l),
        };
    }
    t
}

// The masks of the basic lanes, drawn from the lanes of the first `count` slots.
pub fn draw(basis: &Basis, m: usize, count: usize, adj: &mut [u64; NODES])
    requires { (m ≤ stride) × (count ≤ node_room) × ((t : ℕ) → t < count → get_or basis.now.lane t 0 / stride < m) }
    ensures { Redrawn m basis.now.lane count adj.new }
{
    *adj = [0; NODES];
    for &l in &basis.lane[..count] {
        link(adj, m, l / MAX_SIDE, l % MAX_SIDE);
    }
}

// The tableau that the board holds.
pub fn gather(board: &Board, m: usize, n: usize) -> Tableau
    requires { (P : Problem) × (T : List Cell) × Shows P T board.now m n }
    ensures { (P : Problem) (T : List Cell) → Shows P T board.now m n → result ≡ tableau_of T }
{
    let mut adj = [0; NODES];
    draw(&board.basis, m, m + n - 1, &mut adj);
    gather_cells(&adj, &board.amounts, m)
}
