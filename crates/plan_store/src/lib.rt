// The plan that the bags of a tableau make.
#![tactic(auto)]

ghost use Rattle.plan_store.specs.Plan.{Storable, Stored};

use parties::own_number;
use transport::MAX_SIDE;
use tree::LANES;

// Writes a plan of m × n lanes in sheet order, and leaves the rest of the list as it is: the bags of the rows and columns whose own numbers `rows` and `cols`
// have, and nothing on all other lanes.
pub fn store_plan(
    q: &[i64; LANES],
    rows: &[usize],
    cols: &[usize],
    m: usize,
    n: usize,
    plan: &mut [u64],
)
    requires { Storable q.now rows.now cols.now m n plan.old }
    ensures { Stored q.now rows.now cols.now m n plan.old plan.new }
{
    plan[..m * n].fill(0);
    let all = cols.len() == n;
    for (i, row) in rows.iter().enumerate() {
        let first = row * n;
        for j in 0..cols.len() {
            let col = own_number(cols, all, j);
            plan[first + col] = q[i * MAX_SIDE + j] as u64;
        }
    }
}
