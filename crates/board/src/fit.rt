// The tests of belonging that look at cells one by one.
ghost use Rattle.std.specs.Prelude.{◌≡◌, ◌≤◌};
ghost use Rattle.transport.specs.Tableau.{cells_of};
ghost use Rattle.tree.specs.Layout.{stride};
ghost use Rattle.board.specs.Cells.{cell_room};
ghost use Rattle.board.specs.CellTests.{cells_fit_of, fits_at};

use transport::{Cell, Pair, Tableau};

// Whether the cell is one of `m` rows and `n` columns, stands at the place `least` or later, and has a pair above (0, 0).
fn cell_fits(c: Cell, m: usize, n: usize, least: usize) -> bool
    requires { (m ≤ stride) × (n ≤ stride) }
    ensures { result ≡ fits_at m n least c }
{
    if m <= c.row {
        return false;
    }
    if n <= c.col {
        return false;
    }
    // A lent cell may have any row and column: only now is it known that its place fits.
    if c.row * n + c.col < least {
        return false;
    }
    let nothing = Pair { q: 0, e: 0 };
    nothing.less(c.amount)
}

// Whether every cell of the tableau is one of `m` rows and `n` columns, they stand in sheet order, and every pair is above (0, 0).
pub fn cells_fit(t: &Tableau, m: usize, n: usize) -> bool
    requires { (t.now.count ≤ cell_room) × (m ≤ stride) × (n ≤ stride) }
    ensures { result ≡ cells_fit_of m n (cells_of t.now) }
{
    let mut least = 0;
    for &c in &t.cells[..t.count] {
        if !cell_fits(c, m, n, least) {
            return false;
        }
        least = c.row * n + c.col + 1;
    }
    true
}
