// The cost of a plan.
ghost use Rattle.std.specs.Prelude.{◌≡◌, pos, ◌*ℤ◌, length};
ghost use Rattle.transport.specs.Lists.{at, at_z, sum_z};
ghost use Rattle.solving.specs.Cost.{Summable};

// The sum of quantity times cost, over the lanes that have a cost.
pub fn plan_cost(plan: &[u64], cost: &[i64]) -> i64
    requires { Summable plan.now cost.now }
    ensures { result ≡ sum_z (length cost.now) (λ l. pos (at plan.now l) *ℤ at_z cost.now l) }
{
    let mut sum: i64 = 0;
    for l in 0..cost.len() {
        sum += plan[l] as i64 * cost[l];
    }
    sum
}
