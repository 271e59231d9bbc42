// The step round a loop: the slot whose lane holds it, and the amounts after it. The basic lanes stand in slots, and a loop is a mask of slots.
ghost use Rattle.std.specs.Prelude.{◌≡◌, true, ℕ, ◌<◌, length, get_or};
ghost use Rattle.transport.specs.Amount.{Fit};
ghost use Rattle.tree.specs.Mask.{has};
ghost use Rattle.tree.specs.Layout.{lane_room};
ghost use Rattle.board.specs.Slots.{pair_at, Slotted, LeastSlot, Added};

use board::Board;
use board::amount::Amounts;
use transport::Pair;
use tree::{Basis, mask};

// Of the slots, the one whose lane has the smallest pair; the first among equals.
pub(crate) fn least_slot(board: &Board, slots: u64) -> usize
    requires slots_nonzero { 0 < slots }
    requires by_index { (t : ℕ) → has slots t ≡ true → get_or board.now.basis.lane t 0 < lane_room }
    ensures { LeastSlot board.now.amounts.q board.now.amounts.e board.now.basis.lane slots 0 result }
{
    let lane = &board.basis.lane;
    let mut at = mask::first_bit(slots);
    let mut least = board.amounts.pair_at(lane[at]);
    let mut bits = mask::rest(slots);
    // A while: it goes over the bits of a mask, and counts no index.
    while bits != 0 {
        let t = mask::first_bit(bits);
        let x = board.amounts.pair_at(lane[t]);
        if x.less(least) {
            at = t;
            least = x;
        }
        bits = mask::rest(bits);
    }
    at
}

// Adds x to the pair on the lane of each slot.
pub(crate) fn carry(amounts: &mut Amounts, basis: &Basis, slots: u64, x: Pair)
    requires q_len { (length amounts.old.q ≡ lane_room)
        × (length amounts.old.e ≡ lane_room)
        × Slotted basis.now.lane slots }
    requires by_index { (t : ℕ) → has slots t ≡ true
        → Fit (pair_at amounts.old.q amounts.old.e (get_or basis.now.lane t 0)) x }
    ensures { Added x.q basis.now.lane slots 0 amounts.old.q amounts.new.q
        × Added x.e basis.now.lane slots 0 amounts.old.e amounts.new.e }
{
    let mut bits = slots;
    // A while: it goes over the bits of a mask, and counts no index.
    while bits != 0 {
        let l = basis.lane[mask::first_bit(bits)];
        let sum = amounts.pair_at(l) + x;
        amounts.put_pair(l, sum);
        bits = mask::rest(bits);
    }
}
