// A sheet that was read, stored in the lent lists.
#![tactic(auto)]

ghost use Rattle.std.specs.Prelude.{◌≡◌, true, false, ◌*◌, ◌≤◌, length};
ghost use Rattle.transport.specs.Limits.{max_sources, max_sinks};
ghost use Rattle.transport.specs.Sheet.{sheet_of};
ghost use Rattle.transport.specs.SheetText.{read_tests};
ghost use Rattle.transport.specs.Calls.{unless, lent_after};
ghost use Rattle.transport.specs.Answers.{read_answer};
ghost use Rattle.decimals.specs.Front.{front};

use transport::{Counts, Refusal};

// A sheet that was read goes to the lent lists, unless 3, 4, 5, 10, 11 or 8 refuses it.
pub fn store_sheet(
    sheet_supply: &[u64],
    sheet_demand: &[u64],
    sheet_cost: &[i64],
    supply: &mut [u64],
    demand: &mut [u64],
    cost: &mut [i64],
) -> Result<Counts, Refusal>
    requires { (length sheet_supply.now ≤ max_sources)
        × (length sheet_demand.now ≤ max_sinks)
        × (length sheet_cost.now ≡ length sheet_supply.now * length sheet_demand.now) }
    ensures { let S = sheet_of sheet_supply.now sheet_demand.now sheet_cost.now in
        let a = unless (read_tests (length supply.old) (length demand.old) (length cost.old) S) S in
        (result ≡ read_answer a)
        × (supply.new ≡ lent_after (λ S. S.supply) a supply.old)
        × (demand.new ≡ lent_after (λ S. S.demand) a demand.old)
        × (cost.new ≡ lent_after (λ S. S.cost) a cost.old) }
{
    sheet::check_numbers(sheet_supply, sheet_demand, sheet_cost)?;
    let supply_fits = sheet_supply.len() <= supply.len();
    let demand_fits = sheet_demand.len() <= demand.len();
    let cost_fits = sheet_cost.len() <= cost.len();
    // No list is stored unless all three fit.
    if !(supply_fits && demand_fits && cost_fits) {
        return Err(Refusal::TooShort);
    }
    supply[..sheet_supply.len()].copy_from_slice(sheet_supply);
    demand[..sheet_demand.len()].copy_from_slice(sheet_demand);
    cost[..sheet_cost.len()].copy_from_slice(sheet_cost);
    Ok(Counts {
        sources: sheet_supply.len(),
        sinks: sheet_demand.len(),
    })
}
