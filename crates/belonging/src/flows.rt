// Whether the amounts on the basic lanes are the flow of weights at the nodes.
ghost use Rattle.std.specs.Prelude.{◌≡◌};
ghost use Rattle.tree.specs.Layout.{LanesApart, StrikesInRoom};
ghost use Rattle.tree.specs.Basis.{struck_off};
ghost use Rattle.belonging.specs.FlowLaws.{weights_of};
ghost use Rattle.belonging.specs.Carried.{Light, carries_flow};

use tree::{Basis, LANES, NODES};

// Forwards through the strikes: a leaf's lane must carry exactly what the leaf still needs, which is
// then taken from both ends of the lane. Amounts are compared and never added up, so that none can be
// too great. The weights are used up.
pub(crate) fn flows_match(
    weight: &mut [i64; NODES],
    amount: &[i64; LANES],
    basis: &Basis,
    count: usize,
) -> bool
    requires strikes_in_room { StrikesInRoom basis.now.leaf basis.now.other basis.now.lane count }
    requires lanes_apart { LanesApart basis.now.lane count }
    requires light { Light weight.old }
    ensures { let b = basis.now in
        result ≡ carries_flow (weights_of weight.old) (struck_off b count) amount.now b.lane count }
{
    for k in 0..count {
        let need = weight[basis.leaf[k]];
        if amount[basis.lane[k]] != need {
            return false;
        }
        weight[basis.leaf[k]] = 0;
        weight[basis.other[k]] -= need;
    }
    true
}
