// Read sheet, section by section.
#![tactic(auto)]

pub mod whole_text;

ghost use Rattle.std.specs.Prelude.{◌≡◌, length};
ghost use Rattle.transport.specs.SheetText.{read_sheet_call};
ghost use Rattle.transport.specs.Calls.{lent_after};
ghost use Rattle.transport.specs.Answers.{read_answer};

use crate::whole_text::read_sections;
use sheet_store::store_sheet;
use transport::{Counts, MAX_LANES, MAX_SINKS, MAX_SOURCES, Refusal};

// Read sheet: the counts of sources and sinks, which then stand in the lent lists with the costs;
// or the refusal, and the lists are as they were. The text is read into lists of the largest sheet
// first, so that nothing is stored before all of it is known to be good.
#[tactic(auto, unfolding(transport::specs::Limits::max_sources, transport::specs::Limits::max_sinks))]
pub fn read_sheet(
    text: &[u8],
    supply: &mut [u64],
    demand: &mut [u64],
    cost: &mut [i64],
) -> Result<Counts, Refusal>
    ensures { let a = read_sheet_call text.now (length supply.old) (length demand.old) (length cost.old) in
        (result ≡ read_answer a)
        × (supply.new ≡ lent_after (λ S. S.supply) a supply.old)
        × (demand.new ≡ lent_after (λ S. S.demand) a demand.old)
        × (cost.new ≡ lent_after (λ S. S.cost) a cost.old) }
{
    let mut supplies = [0u64; MAX_SOURCES];
    let mut demands = [0u64; MAX_SINKS];
    let mut costs = [0i64; MAX_LANES];
    let Counts { sources, sinks } = read_sections(text, &mut supplies, &mut demands, &mut costs)?;
    // The answer has a name, so that a program that says what was read is an operand away.
    let stored = store_sheet(
        &supplies[..sources],
        &demands[..sinks],
        &costs[..sources * sinks],
        supply,
        demand,
        cost,
    );
    stored
}
