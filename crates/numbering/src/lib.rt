// Tableaux between the numbers of the parties left among themselves and their own numbers.
#![tactic(auto)]

ghost use Rattle.std.specs.Prelude.{◌≡◌, List, map, ℕ, ◌<◌, length, MatchOption};
ghost use Rattle.transport.specs.Limits.{max_side};
ghost use Rattle.transport.specs.Tableau.{cells_of, tableau_of};
ghost use Rattle.transport.specs.declared.Cell.{Cell};
ghost use Rattle.numbering.specs.Numbers.{Growing, number_in, Numbering, own_cell_of, cell_among_of, Within};

use transport::{Cell, MAX_CELLS, MAX_SIDE, Tableau};

// A cell under own numbers.
fn own_cell(c: Cell, rows: &[usize], cols: &[usize]) -> Cell
    requires { (c.row < length rows.now) × (c.col < length cols.now) }
    ensures { result ≡ own_cell_of rows.now cols.now c }
{
    Cell {
        row: rows[c.row],
        col: cols[c.col],
        ..c
    }
}

// A tableau under own numbers: those of the rows and those of the columns are given in their order.
pub fn own_tableau(t: Tableau, rows: &[usize], cols: &[usize]) -> Tableau
    requires { (T : List Cell) × (t ≡ tableau_of T) × Within rows.now cols.now T }
    ensures { (T : List Cell) → t ≡ tableau_of T → result ≡ tableau_of (map (own_cell_of rows.now cols.now) T) }
{
    let mut own = t;
    for k in 0..own.count {
        let c = own.cells[k];
        own.cells[k] = own_cell(c, rows, cols);
    }
    own
}

// For each own number the number among those left, and MAX_SIDE, which is nobody's, where there is
// none. A number and no Option, since a tableau's cell takes it.
fn numbers(own: &[usize]) -> [usize; MAX_SIDE]
    requires { Growing own.now }
    ensures { Numbering own.now result }
{
    let mut among = [MAX_SIDE; MAX_SIDE];
    for (k, &x) in own.iter().enumerate() {
        among[x] = k;
    }
    among
}

// The number that a list of these has for an own number, be that any.
fn number_of(among: &[usize; MAX_SIDE], own: usize) -> usize
    ensures { (ks : List ℕ) → Numbering ks among.now → result ≡ number_in ks own }
{
    if own < MAX_SIDE { among[own] } else { MAX_SIDE }
}

// The number of one party among those left, whose own numbers are given in their order, if it is
// one of them.
pub fn number_in(own: &[usize], party: usize) -> Option<usize>
    requires { Growing own.now }
    ensures { MatchOption result (number_in own.now party ≡ max_side)
        (λ k. (k < length own.now) × (k ≡ number_in own.now party)) }
{
    own.iter().position(|&x| x == party)
}

// A cell under the numbers of those left, which the two lists have.
fn cell_among(c: Cell, row_number: &[usize; MAX_SIDE], col_number: &[usize; MAX_SIDE]) -> Cell
    ensures { (rows cols : List ℕ) → Numbering rows row_number.now → Numbering cols col_number.now → result ≡ cell_among_of rows cols c }
{
    Cell {
        row: number_of(row_number, c.row),
        col: number_of(col_number, c.col),
        ..c
    }
}

// A tableau that a caller hands over, under the numbers of those left: a cell at a struck party, or off the sheet, gets a number that nobody has.
pub fn renumber(t: Tableau, rows: &[usize], cols: &[usize]) -> Tableau
    requires { Growing rows.now × Growing cols.now }
    ensures { (result.count ≡ t.count) × (cells_of result ≡ map (cell_among_of rows.now cols.now) (cells_of t)) }
{
    let row_number = numbers(rows);
    let col_number = numbers(cols);
    let mut inner = t;
    // The count may be any: it may say more cells than there are.
    for k in 0..inner.count.min(MAX_CELLS) {
        let c = inner.cells[k];
        inner.cells[k] = cell_among(c, &row_number, &col_number);
    }
    inner
}
