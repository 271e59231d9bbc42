// Run: rounds within an allowance.
#![tactic(auto)]

ghost use Rattle.std.specs.Prelude.{◌≡◌, List};
ghost use Rattle.transport.specs.Sheet.{sheet_of};
ghost use Rattle.transport.specs.Tableau.{tableau_of};
ghost use Rattle.transport.specs.declared.Cell.{Cell};
ghost use Rattle.transport.specs.Calls.{run_call};
ghost use Rattle.transport.specs.Answers.{run_shown, run_answer};

use board::Board;
use board::gather::gather;
use loading::load_sheet;
use numbering::own_tableau;
use runs::run::{Made, make_run};
use transport::{Refusal, RunAnswer, RunOutcome, Tableau};
use tree::LANES;

// The answer for a run that ended so: finished, or spent; with its last tableau.
#[tactic(auto, unfolding(transport::specs::Answers::run_shown, transport::specs::Answers::run_outcome))]
fn ended_run(end: Made, tableau: Tableau) -> RunAnswer
    ensures { (T : List Cell) → tableau ≡ tableau_of T
        → result ≡ run_shown (record { finished = end.finished; tableau = T; rounds = end.made }) }
{
    let outcome = if end.finished {
        RunOutcome::Finished(end.made)
    } else {
        RunOutcome::Spent(end.made)
    };
    RunAnswer { outcome, tableau }
}

// Run makes rounds: `finished` with the tableau and the number of rounds, if it finishes within the
// allowance; else `spent`, after exactly that many. Refusals as for a round.
pub fn run(
    supply: &[u64],
    demand: &[u64],
    cost: &[i64],
    t: Tableau,
    allowance: u32,
) -> Result<RunAnswer, Refusal>
    ensures { let S = sheet_of supply.now demand.now cost.now in
        result ≡ run_answer (run_call S t allowance) }
{
    let mut board = Board::new();
    let mut spread = [0; LANES];
    let parties = load_sheet(supply, demand, cost, t, &mut board, &mut spread)?;
    let within = u64::from(allowance);
    let end = make_run(&mut board, &spread, parties.rows, parties.columns, within);
    let last = gather(&board, parties.rows, parties.columns);
    let own = own_tableau(last, parties.row_numbers(), parties.column_numbers());
    Ok(ended_run(end, own))
}
