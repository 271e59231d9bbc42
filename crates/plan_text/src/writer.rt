// Write plan.
ghost use Rattle.std.specs.Prelude.{◌≡◌, length};
ghost use Rattle.transport.specs.Sheet.{sheet_of};
ghost use Rattle.transport.specs.Calls.{lent_after};
ghost use Rattle.transport.specs.PlanText.{write_plan_call};
ghost use Rattle.transport.specs.Answers.{write_answer};

use plan_lines::lanes::used_count;
use plan_lines::plan_sections::{Figures, PlanSections};
use solve_call::solve;
use transport::{MAX_LANES, MAX_SIDE, Refusal, SolveAnswer};

// Write plan: the plan text of the solved sheet in the output, its length in the answer; or a
// refusal, as by write sheet, and the output is as it was. The length is known before the first
// byte is written.
pub fn write_plan(
    supply: &[u64],
    demand: &[u64],
    cost: &[i64],
    out: &mut [u8],
) -> Result<usize, Refusal>
    ensures { let S = sheet_of supply.now demand.now cost.now in
        let a = write_plan_call S (length out.old) in
        (result ≡ write_answer a) × (out.new ≡ lent_after (λ t. t) a out.old) }
{
    let mut u = [0i64; MAX_SIDE];
    let mut v = [0i64; MAX_SIDE];
    let mut plan = [0u64; MAX_LANES];
    let SolveAnswer {
        cost: total,
        rounds,
    } = solve(supply, demand, cost, &mut u, &mut v, &mut plan)?;
    let m = supply.len();
    let n = demand.len();
    let lanes = m * n;
    let plan = &plan[..lanes];
    let sections = PlanSections {
        figures: Figures {
            total,
            rounds,
            used: used_count(plan),
        },
        u: &u[..m],
        v: &v[..n],
        plan,
    };
    if out.len() < sections.text_len() {
        return Err(Refusal::TooShort);
    }
    let len = sections.write_text(out);
    Ok(len)
}
