// The exported calls on tableaux, of a tableau by value: round, run and settle. Each gives a struct
// that crosses the border, or the number of a refusal.
#![tactic(auto)]

ghost use Rattle.std.specs.Prelude.{◌≡◌, length};
ghost use Rattle.transport.specs.Sheet.{sheet_of};
ghost use Rattle.transport.specs.Calls.{lent_after, round_call, run_call, settle_call};
ghost use Rattle.border.specs.Border.{round_out, run_out, number_of};

use border::{RoundOut, RunOut};
use dealing::tableau::empty_tableau;
use transport::{MAX_SIDE, RoundAnswer, RunAnswer, RunOutcome, Tableau};

pub fn round_from(supply: &[u64], demand: &[u64], cost: &[i64], t: Tableau) -> RoundOut
    ensures { let S = sheet_of supply.now demand.now cost.now in
        result ≡ round_out (round_call S t) }
{
    let nothing = RoundOut {
        refusal: 0,
        finished: false,
        tableau: empty_tableau(),
        u: [0; MAX_SIDE],
        v: [0; MAX_SIDE],
    };
    match round_call::round(supply, demand, cost, t) {
        Ok(RoundAnswer::Moved(tableau)) => RoundOut { tableau, ..nothing },
        Ok(RoundAnswer::Finished { u, v }) => RoundOut {
            finished: true,
            u,
            v,
            ..nothing
        },
        Err(refusal) => RoundOut {
            refusal: refusal.number(),
            ..nothing
        },
    }
}

pub fn run_from(supply: &[u64], demand: &[u64], cost: &[i64], t: Tableau, allowance: u32) -> RunOut
    ensures { let S = sheet_of supply.now demand.now cost.now in
        result ≡ run_out (run_call S t allowance) }
{
    match run_call::run(supply, demand, cost, t, allowance) {
        Ok(RunAnswer { outcome, tableau }) => match outcome {
            RunOutcome::Finished(rounds) => RunOut {
                refusal: 0,
                finished: true,
                rounds,
                tableau,
            },
            RunOutcome::Spent(rounds) => RunOut {
                refusal: 0,
                finished: false,
                rounds,
                tableau,
            },
        },
        Err(refusal) => RunOut {
            refusal: refusal.number(),
            finished: false,
            rounds: 0,
            tableau: empty_tableau(),
        },
    }
}

// Settle: 0, or the number of the refusal.
pub fn settle_from(supply: &[u64], demand: &[u64], cost: &[i64], t: Tableau, plan: &mut [u64]) -> u8
    ensures { let S = sheet_of supply.now demand.now cost.now in
        let a = settle_call S t (length plan.old) in
        (result ≡ number_of a) × (plan.new ≡ lent_after (λ x. x) a plan.old) }
{
    match settle_call::settle(supply, demand, cost, t, plan) {
        Ok(()) => 0,
        Err(refusal) => {
            let number = refusal.number();
            number
        }
    }
}
