// The sheet check, part of every call that takes a sheet as lists: refusals 1 to 5, 10 and 11, of several the first.
#![tactic(auto)]

ghost use Rattle.std.specs.Prelude.{◌≡◌, true, ◌≤◌, pos, neg_ℤ, length};
ghost use Rattle.transport.specs.Lists.{all, at_most, within, within_z, total};
ghost use Rattle.transport.specs.Limits.{max_side, max_amount, max_cost};
ghost use Rattle.transport.specs.Sheet.{refusal, number_tests, sheet_tests, sheet_of};
ghost use Rattle.sheet.specs.Check.{check_answer};

use transport::{MAX_AMOUNT, MAX_COST, MAX_SIDE, MAX_SINKS, MAX_SOURCES, Refusal};

// Whether a sheet may have so many sources, or so many sinks, if there may be no more than `most`.
fn side_fits(count: usize, most: usize) -> bool
    ensures { result ≡ within 1 most count }
{
    1 <= count && count <= most
}

// Whether no amount is above its limit.
fn amounts_within(amounts: &[u64]) -> bool
    ensures { result ≡ all (at_most max_amount) amounts.now }
{
    amounts.iter().all(|x| *x <= MAX_AMOUNT)
}

// Whether every cost is within its limits, which are as far below 0 as above it.
fn costs_within(costs: &[i64]) -> bool
    ensures { result ≡ all (within_z (neg_ℤ (pos max_cost)) (pos max_cost)) costs.now }
{
    costs.iter().all(|x| -MAX_COST <= *x && *x <= MAX_COST)
}

// The total of supplies or demands that are within their limits, so that it fits.
pub fn total_of(amounts: &[u64]) -> u64
    requires { (length amounts.now ≤ max_side) × (all (at_most max_amount) amounts.now ≡ true) }
    ensures { result ≡ total amounts.now }
{
    let mut sum: u64 = 0;
    for x in amounts {
        sum += *x;
    }
    sum
}

// Refusals 3, 4, 5, 10 and 11 of a sheet whose sides are within their limits. A total is taken once its parts are known to be.
pub fn check_numbers(supply: &[u64], demand: &[u64], cost: &[i64]) -> Result<(), Refusal>
    requires { (length supply.now ≤ max_side) × (length demand.now ≤ max_side) }
    ensures { let S = sheet_of supply.now demand.now cost.now in
        result ≡ check_answer (refusal (number_tests S)) }
{
    if !amounts_within(supply) {
        return Err(Refusal::Amount);
    }
    if !amounts_within(demand) {
        return Err(Refusal::Amount);
    }
    if !costs_within(cost) {
        return Err(Refusal::Cost);
    }
    let supply_total = total_of(supply);
    let demand_total = total_of(demand);
    let lacking = supply_total < demand_total;
    // What is not wanted goes to an extra café in the tableau, for which there must be a column.
    let crowded = supply_total != demand_total && demand.len() == MAX_SIDE;
    let idle = demand_total == 0;
    if lacking {
        return Err(Refusal::Lacking);
    }
    if crowded {
        return Err(Refusal::Crowded);
    }
    if idle {
        return Err(Refusal::Idle);
    }
    Ok(())
}

// The sheet check.
pub fn check_sheet(supply: &[u64], demand: &[u64], cost: &[i64]) -> Result<(), Refusal>
    ensures { let S = sheet_of supply.now demand.now cost.now in
        result ≡ check_answer (refusal (sheet_tests S)) }
{
    let m = supply.len();
    let n = demand.len();
    if !side_fits(m, MAX_SOURCES) {
        return Err(Refusal::Sides);
    }
    if !side_fits(n, MAX_SINKS) {
        return Err(Refusal::Sides);
    }
    if cost.len() != m * n {
        return Err(Refusal::CostCount);
    }
    check_numbers(supply, demand, cost)
}
