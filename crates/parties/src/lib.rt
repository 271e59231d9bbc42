// The parties of a sheet's tableaux: those left, which have an amount, numbered among themselves in
// their order, and where there is a surplus an extra café after them, the last, that takes it.
#![tactic(auto)]

ghost use Rattle.std.specs.Prelude.{◌≡◌, ◌≤◌, length, take};

use transport::MAX_SIDE;

pub mod number;

pub use number::{number_parties, own_number};

// The rows and the columns of those left, and of the columns the cafés, which come first. Their
// amounts and their own numbers stand at the fronts of arrays with room for any side.
#[derive(Clone, Copy)]
pub struct Parties {
    pub rows: usize,
    pub columns: usize,
    pub cafes: usize,
    pub supplies: [u64; MAX_SIDE],
    pub demands: [u64; MAX_SIDE],
    pub row_numbers: [usize; MAX_SIDE],
    pub column_numbers: [usize; MAX_SIDE],
    pub ghost in_room: { (rows ≤ length row_numbers) × (columns ≤ length column_numbers) × (cafes ≤ columns) },
}

impl Parties {
    pub fn supplies(&self) -> &[u64]
        ensures { result.now ≡ take self.now.rows self.now.supplies }
    {
        &self.supplies[..self.rows]
    }

    pub fn demands(&self) -> &[u64]
        ensures { result.now ≡ take self.now.columns self.now.demands }
    {
        &self.demands[..self.columns]
    }

    // The own numbers of the rows,
    pub fn row_numbers(&self) -> &[usize]
        ensures { result.now ≡ take self.now.rows self.now.row_numbers }
    {
        &self.row_numbers[..self.rows]
    }

    // of the columns,
    pub fn column_numbers(&self) -> &[usize]
        ensures { result.now ≡ take self.now.columns self.now.column_numbers }
    {
        &self.column_numbers[..self.columns]
    }

    // and of the cafés among them.
    pub fn cafe_numbers(&self) -> &[usize]
        ensures { result.now ≡ take self.now.cafes self.now.column_numbers }
    {
        &self.column_numbers[..self.cafes]
    }
}
