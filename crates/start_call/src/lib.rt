// Start: the first tableau of a sheet.
#![tactic(auto)]

ghost use Rattle.std.specs.Prelude.{◌≡◌};
ghost use Rattle.transport.specs.Sheet.{sheet_of};
ghost use Rattle.transport.specs.Calls.{start_call};
ghost use Rattle.transport.specs.Answers.{start_answer};

use dealing::corner::first_tableau;
use numbering::own_tableau;
use parties::number_parties;
use transport::{Refusal, Tableau};

// Start gives the first tableau. Sheet check only.
pub fn start(supply: &[u64], demand: &[u64], cost: &[i64]) -> Result<Tableau, Refusal>
    ensures { let S = sheet_of supply.now demand.now cost.now in
        result ≡ start_answer (start_call S) }
{
    sheet::check_sheet(supply, demand, cost)?;
    let parties = number_parties(supply, demand);
    let first = first_tableau(parties.supplies(), parties.demands());
    let own = own_tableau(first, parties.row_numbers(), parties.column_numbers());
    Ok(own)
}
