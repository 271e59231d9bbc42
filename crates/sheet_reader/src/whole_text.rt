// The sections of a sheet text, one after the other up to the end of the text.
ghost use Rattle.std.specs.Prelude.{◌≡◌, ◌*◌, ◌≤◌, length};
ghost use Rattle.transport.specs.Limits.{max_sources, max_sinks};
ghost use Rattle.transport.specs.SheetText.{sheet_reader};
ghost use Rattle.sheet_reader.specs.SheetAnswer.{sheet_read, ReadFits};

use line_reader::{read_costs, read_list};
use tokens::Stuck;
use transport::{Counts, MAX_SINKS, MAX_SOURCES};

// The whole text, into the fronts of three lists that are long enough for any sheet text.
#[tactic(auto, unfolding(transport::specs::Limits::max_sources, transport::specs::Limits::max_sinks))]
pub fn read_sections(
    text: &[u8],
    supply: &mut [u64],
    demand: &mut [u64],
    cost: &mut [i64],
) -> Result<Counts, Stuck>
    requires { (max_sources ≤ length supply.old)
        × (max_sinks ≤ length demand.old)
        × (max_sources * max_sinks ≤ length cost.old) }
    ensures reads { sheet_reader text.now ≡ sheet_read text.now supply.new demand.new cost.new result }
    ensures fits { ReadFits text.now result }
{
    let supplies = read_list(text, 0, b"supply ", MAX_SOURCES, supply)?;
    let demands = read_list(text, supplies.next, b"demand ", MAX_SINKS, demand)?;
    let sources = supplies.value;
    let sinks = demands.value;
    let next = read_costs(text, demands.next, sources, sinks, cost)?;
    if next < text.len() {
        return Err(Stuck(next));
    }
    Ok(Counts { sources, sinks })
}
