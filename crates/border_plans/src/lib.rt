// The exported calls that solve: solve, and write plan. Each gives a struct that crosses the border.
#![tactic(auto)]

ghost use Rattle.std.specs.Prelude.{◌≡◌, length};
ghost use Rattle.transport.specs.Sheet.{sheet_of};
ghost use Rattle.transport.specs.Calls.{lent_after, solve_call};
ghost use Rattle.transport.specs.PlanText.{write_plan_call};
ghost use Rattle.border.specs.Border.{solve_out_of, write_out_of};
ghost use Rattle.border_plans.specs.Crossing.{solved_as};

use border::{SolveOut, WriteOut};
use border_sheets::write_out;
use transport::{Refusal, SolveAnswer};

pub fn solve_out(
    supply: &[u64],
    demand: &[u64],
    cost: &[i64],
    u: &mut [i64],
    v: &mut [i64],
    plan: &mut [u64],
) -> SolveOut
    ensures { let S = sheet_of supply.now demand.now cost.now in
        let a = solve_call S (length u.old) (length v.old) (length plan.old) in
        (result ≡ solve_out_of a)
        × (u.new ≡ lent_after (λ s. s.u) a u.old)
        × (v.new ≡ lent_after (λ s. s.v) a v.old)
        × (plan.new ≡ lent_after (λ s. s.plan) a plan.old) }
{
    solved_out(solve_call::solve(supply, demand, cost, u, v, plan))
}

// The answer of solve.
fn solved_out(answer: Result<SolveAnswer, Refusal>) -> SolveOut
    ensures { result ≡ solved_as answer }
{
    match answer {
        Ok(SolveAnswer { cost, rounds }) => SolveOut {
            refusal: 0,
            cost,
            rounds,
        },
        Err(refusal) => SolveOut {
            refusal: refusal.number(),
            cost: 0,
            rounds: 0,
        },
    }
}

pub fn write_plan_out(supply: &[u64], demand: &[u64], cost: &[i64], out: &mut [u8]) -> WriteOut
    ensures { let S = sheet_of supply.now demand.now cost.now in
        let a = write_plan_call S (length out.old) in
        (result ≡ write_out_of a) × (out.new ≡ lent_after (λ t. t) a out.old) }
{
    write_out(plan_text::write_plan(supply, demand, cost, out))
}
