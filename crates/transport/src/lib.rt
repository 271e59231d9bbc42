// The types that every crate of the panel shares, and, in specs/, the definitions that every contract cites.
#![tactic(auto)]

ghost use Rattle.std.specs.Prelude.{◌≡◌};
ghost use Rattle.transport.specs.Amount.{add, subtract, less, Fit};
ghost use Rattle.transport.specs.Refusals.{number, place_of};

use std::ops::{Add, Sub};

// The most sources, and the most sinks, that a sheet may have.
pub const MAX_SOURCES: usize = 32;

pub const MAX_SINKS: usize = 32;

// The room for one side, in answers and in arrays: neither limit is above it.
pub const MAX_SIDE: usize = 32;

// The most lanes of a sheet.
pub const MAX_LANES: usize = MAX_SOURCES * MAX_SINKS;

// The most basic cells that a tableau may have: one fewer than the nodes of the largest sheet.
pub const MAX_CELLS: usize = 2 * MAX_SIDE - 1;

// The greatest supply or demand, in bags.
pub const MAX_AMOUNT: u64 = 1_000_000;

// The greatest cost of a lane, in cents a bag; the least is as far below 0.
pub const MAX_COST: i64 = 1_000_000;

// The largest value of a standing sheet's counter.
pub const MAX_COUNTER: u64 = 18_446_744_073_709_551_615;

// The longest sheet text, in bytes.
pub const MAX_TEXT: usize = 9756;

// No plan text is longer, in bytes.
pub const MAX_PLAN_TEXT: usize = 1_604;

// A paired amount: `q` bags and `e` marks.
#[repr(C)]
#[derive(Clone, Copy)]
pub struct Pair {
    pub q: i64,
    pub e: i64,
}

// Part by part. The caller sees to it that neither part leaves the range.
impl Add for Pair {
    type Output = Pair;

    ghost can_add = { λ a b. Fit a b };

    ghost add_gives = { λ a b sum. sum ≡ add a b };

    fn add(self, o: Pair) -> Pair {
        Pair {
            q: self.q + o.q,
            e: self.e + o.e,
        }
    }
}

impl Sub for Pair {
    type Output = Pair;

    ghost can_sub = { λ a b. Fit a b };

    ghost sub_gives = { λ a b difference. difference ≡ subtract a b };

    fn sub(self, o: Pair) -> Pair {
        Pair {
            q: self.q - o.q,
            e: self.e - o.e,
        }
    }
}

impl Pair {
    // By bags first, then by marks.
    pub fn less(self, o: Pair) -> bool
        ensures { result ≡ less self o }
    {
        // Both tests are made: a branch would be mispredicted as often as not.
        (self.q < o.q) | (!(o.q < self.q) & (self.e < o.e))
    }
}

// A basic cell with its amount. Rows (sources) and columns (sinks) count from 0.
#[repr(C)]
#[derive(Clone, Copy)]
pub struct Cell {
    pub row: usize,
    pub col: usize,
    pub amount: Pair,
}

// A tableau: its first `count` cells, in sheet order. A tableau that a call gives holds zeros in the rest.
#[repr(C)]
#[derive(Clone, Copy)]
pub struct Tableau {
    pub cells: [Cell; MAX_CELLS],
    pub count: usize,
}

// Why a call refuses. docs/FORMATS.md explains each, under its number.
#[derive(Clone, Copy, PartialEq, Eq)]
pub enum Refusal {
    // The sheet has no roastery or no café, or too many.
    Sides,
    // The list of costs is not as long as there are lanes.
    CostCount,
    // A supply or a demand is above its limit.
    Amount,
    // A cost is beyond its limits.
    Cost,
    // The cafés want more than there is.
    Lacking,
    // The tableau does not belong to the sheet.
    NotBelonging,
    // The tableau is not finished.
    Unfinished,
    // A lent list, or the output, is too short.
    TooShort,
    // The text is no sheet text: the place of the first byte that cannot stand there.
    NotSheetText(usize),
    // There is a surplus, and no column is left for the extra café that takes it.
    Crowded,
    // The cafés want nothing.
    Idle,
    // The edit names a party that is not on the sheet, or the counter is full.
    BadEdit,
}

impl Refusal {
    // The number under which programs in other languages and texts know it.
    pub fn number(self) -> u8
        ensures { result ≡ number self }
    {
        match self {
            Refusal::Sides => 1,
            Refusal::CostCount => 2,
            Refusal::Amount => 3,
            Refusal::Cost => 4,
            Refusal::Lacking => 5,
            Refusal::NotBelonging => 6,
            Refusal::Unfinished => 7,
            Refusal::TooShort => 8,
            Refusal::NotSheetText(_) => 9,
            Refusal::Crowded => 10,
            Refusal::Idle => 11,
            Refusal::BadEdit => 12,
        }
    }

    // The place that comes with it, if it is that of a text.
    pub fn place(self) -> Option<usize>
        ensures { result ≡ place_of self }
    {
        match self {
            Refusal::NotSheetText(place) => Some(place),
            _ => None,
        }
    }
}

// What a round gives: the next tableau, or the potentials (prices) of a finished one. What a field
// holds where it has no meaning is zero.
#[derive(Clone, Copy)]
pub enum RoundAnswer {
    Moved(Tableau),
    Finished {
        u: [i64; MAX_SIDE],
        v: [i64; MAX_SIDE],
    },
}

// What a run gives: its last tableau, with the rounds made.
#[derive(Clone, Copy)]
pub struct RunAnswer {
    pub outcome: RunOutcome,
    pub tableau: Tableau,
}

#[derive(Clone, Copy)]
pub enum RunOutcome {
    Finished(u64),
    Spent(u64),
}

// What solve gives; the potentials and the plan stand in the lent lists.
#[derive(Clone, Copy)]
pub struct SolveAnswer {
    pub cost: i64,
    pub rounds: u64,
}

// A sheet by value. Its m supplies, n demands and m × n costs, in sheet order, stand at the fronts
// of arrays with room for the largest sheet.
#[repr(C)]
#[derive(Clone, Copy)]
pub struct KeptSheet {
    pub m: usize,
    pub n: usize,
    pub supply: [u64; MAX_SOURCES],
    pub demand: [u64; MAX_SINKS],
    pub cost: [i64; MAX_LANES],
}

// A standing sheet: a sheet with its finished tableau. `counter` counts the accepted edits.
#[repr(C)]
#[derive(Clone, Copy)]
pub struct Standing {
    pub sheet: KeptSheet,
    pub tableau: Tableau,
    pub counter: u64,
}

// What an edit sets: the cost of the lane between the roastery and the café that it names, or the
// supply of the one and the demand of the other.
#[derive(Clone, Copy)]
pub enum Change {
    Cost(i64),
    Amounts { supply: u64, demand: u64 },
}

// An edit names one roastery, its row, and one café, its column.
#[derive(Clone, Copy)]
pub struct Edit {
    pub row: usize,
    pub col: usize,
    pub change: Change,
}

// The answer of set up. It crosses to C as it is: `refusal` is the number of the refusal, or 0. The
// standing sheet of a refusal is all zeros.
#[repr(C)]
#[derive(Clone, Copy)]
pub struct SetUpAnswer {
    pub refusal: u8,
    pub standing: Standing,
}

// The answer of an edit, which crosses to C as it is too: the cost of the plan, the rounds that the
// edit made, and the standing sheet after it. A refusal has no cost and no rounds, and gives the
// standing sheet back as it was.
#[repr(C)]
#[derive(Clone, Copy)]
pub struct EditAnswer {
    pub refusal: u8,
    pub cost: i64,
    pub rounds: u64,
    pub after: Standing,
}

// What read sheet gives: how many sources and sinks the lent lists now hold.
#[derive(Clone, Copy)]
pub struct Counts {
    pub sources: usize,
    pub sinks: usize,
}

// The kind of a byte of a text.
#[derive(Clone, Copy)]
pub enum ByteKind {
    Digit,
    Space,
    LineEnd,
    Letter,
    Other,
}
