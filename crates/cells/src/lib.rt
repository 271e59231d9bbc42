// A tableau that is lent as a list of its cells.
#![tactic(auto)]

ghost use Rattle.std.specs.Prelude.{◌≡◌};
ghost use Rattle.transport.specs.Tableau.{lent_tableau_of};

use dealing::tableau;
use transport::{Cell, MAX_CELLS, Tableau};

// The tableau that a lent list of cells is. Calls that take such a list go by it: where the cells are not those of a tableau that belongs to the sheet, be it
// for another count or order of cells or a cell off the sheet, nor does it.
pub fn lent_tableau(cells: &[Cell]) -> Tableau
    ensures { result ≡ lent_tableau_of cells.now }
{
    // The array has room for so many; all are counted.
    let held = cells.len().min(MAX_CELLS);
    let mut array = tableau::empty_tableau().cells;
    array[..held].copy_from_slice(&cells[..held]);
    Tableau {
        cells: array,
        count: cells.len(),
    }
}
