// The parties of a sheet numbered.
ghost use Rattle.std.specs.Prelude.{◌≡◌, true, List, ◌<◌, ◌≤◌, ℤ, length};
ghost use Rattle.transport.specs.Limits.{max_side};
ghost use Rattle.transport.specs.Lists.{at};
ghost use Rattle.transport.specs.Sheet.{sheet_of};
ghost use Rattle.transport.specs.Statements.{Accepted};
ghost use Rattle.parties.specs.Parties.{Numbered, PartiesOf};

use crate::Parties;
use sheet::total_of;
use transport::MAX_SIDE;

// Writes the amounts of those left of one side, and their own numbers; gives how many they are.
fn number_left(amounts: &[u64], left: &mut [u64; MAX_SIDE], own: &mut [usize; MAX_SIDE]) -> usize
    requires { length amounts.now ≤ max_side }
    ensures { Numbered amounts.now result left.new own.new }
{
    let mut count = 0;
    for (k, &x) in amounts.iter().enumerate() {
        if x > 0 {
            left[count] = x;
            own[count] = k;
            count += 1;
        }
    }
    count
}

// The own number of the k-th of those left. Where all are left it is k: a loop that is told so need not look, and copies what lies side by side.
#[tactic(auto, unfolding(transport::specs::Lists::at))]
pub fn own_number(own: &[usize], all: bool, k: usize) -> usize
    requires { (k < length own.now) × (all ≡ true → at own.now k ≡ k) }
    ensures { result ≡ at own.now k }
{
    if all { k } else { own[k] }
}

// The parties left of a sheet that passed its check. Costs play no part.
pub fn number_parties(supply: &[u64], demand: &[u64]) -> Parties
    requires { (cost : List ℤ) × Accepted (sheet_of supply.now demand.now cost) }
    ensures { (cost : List ℤ) → PartiesOf (sheet_of supply.now demand.now cost) result }
{
    let mut supplies = [0; MAX_SIDE];
    let mut demands = [0; MAX_SIDE];
    let mut row_numbers = [0; MAX_SIDE];
    let mut column_numbers = [0; MAX_SIDE];
    let surplus = total_of(supply) - total_of(demand);
    let rows = number_left(supply, &mut supplies, &mut row_numbers);
    let cafes = number_left(demand, &mut demands, &mut column_numbers);
    let mut columns = cafes;
    if surplus > 0 {
        demands[cafes] = surplus;
        column_numbers[cafes] = demand.len();
        columns += 1;
    }
    Parties {
        rows,
        columns,
        cafes,
        supplies,
        demands,
        row_numbers,
        column_numbers,
    }
}
