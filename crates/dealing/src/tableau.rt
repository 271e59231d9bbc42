// What the calls share: tableaux.
ghost use Rattle.std.specs.Prelude.{◌≡◌};
ghost use Rattle.transport.specs.Tableau.{no_tableau};

use transport::{Cell, MAX_CELLS, Pair, Tableau};

// The tableau of an answer that gives none.
pub fn empty_tableau() -> Tableau
    ensures { result ≡ no_tableau }
{
    let nothing = Pair { q: 0, e: 0 };
    let no_cell = Cell {
        row: 0,
        col: 0,
        amount: nothing,
    };
    Tableau {
        cells: [no_cell; MAX_CELLS],
        count: 0,
    }
}
