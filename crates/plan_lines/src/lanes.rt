// The lanes of a plan that carry a bag, in sheet order: a line for each, with its source and its
// sink, both counted from 1, and its bags. They are written and counted from the plan, without a
// list of their own.
ghost use Rattle.std.specs.Prelude.{◌≡◌, ◌*◌, ◌≤◌, ◌<◌, length};
ghost use Rattle.transport.specs.Limits.{max_side};
ghost use Rattle.decimals.specs.Front.{front};
ghost use Rattle.plan_lines.specs.Lanes.{lane_numbers_of, lane_text, used_text, used_count_of};

use sections::section;

// The numbers in the line of the lane at a place, among n columns.
#[tactic(auto, unfolding(transport::specs::Limits::max_side))]
fn lane_numbers(place: usize, n: usize, bags: u64) -> [u64; 3]
    requires { (place < max_side * max_side) × (1 ≤ n) }
    ensures { result ≡ lane_numbers_of n place bags }
{
    [(place / n + 1) as u64, (place % n + 1) as u64, bags]
}

// The line of the lane at a place; none if it carries no bag.
#[tactic(auto, unfolding(crate::specs::Lanes::lane_text, decimals::specs::Front::front))]
fn write_lane(place: usize, n: usize, bags: u64, out: &mut [u8]) -> usize
    requires { (place < max_side * max_side) × (1 ≤ n) × (length (lane_text n place bags) ≤ length out.old) }
    ensures { let text = lane_text n place bags in
        (result ≡ length text) × (out.new ≡ front text out.old) }
{
    if bags == 0 {
        return 0;
    }
    section::write_lines(&lane_numbers(place, n, bags), 3, out)
}

// Its length.
#[tactic(auto, using(sections::specs::Lines::length_lines), unfolding(crate::specs::Lanes::lane_text))]
fn lane_len(place: usize, n: usize, bags: u64) -> usize
    requires { (place < max_side * max_side) × (1 ≤ n) }
    ensures { (result ≡ length (lane_text n place bags)) × (result ≤ 63) }
{
    if bags == 0 {
        return 0;
    }
    section::numbers_len(&lane_numbers(place, n, bags))
}

// The lines of all lanes that carry a bag.
#[tactic(auto, using(crate::specs::Lanes::next_texts), unfolding(transport::specs::Lists::at))]
pub fn write_lanes(plan: &[u64], n: usize, out: &mut [u8]) -> usize
    requires { (length plan.now ≤ max_side * max_side) × (1 ≤ n) × (length (used_text n plan.now (length plan.now)) ≤ length out.old) }
    ensures { let text = used_text n plan.now (length plan.now) in
        (result ≡ length text) × (out.new ≡ front text out.old) }
{
    let mut at = 0;
    for (place, bags) in plan.iter().enumerate() {
        at += write_lane(place, n, *bags, &mut out[at..]);
    }
    at
}

// Their length.
#[tactic(auto, using(crate::specs::Lanes::next_texts), unfolding(transport::specs::Lists::at))]
pub fn lanes_len(plan: &[u64], n: usize) -> usize
    requires { (length plan.now ≤ max_side * max_side) × (1 ≤ n) }
    ensures { let plan = plan.entry.now in
        (result ≡ length (used_text n plan (length plan))) × (result ≤ length plan * 63) }
{
    let mut len = 0;
    for (place, bags) in plan.iter().enumerate() {
        len += lane_len(place, n, *bags);
    }
    len
}

// How many lanes carry a bag.
pub fn used_count(plan: &[u64]) -> usize
    ensures { result ≡ used_count_of plan.now (length plan.now) }
{
    plan.iter().filter(|bags| 0 < **bags).count()
}
