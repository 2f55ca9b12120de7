ghost use Rattle.std.specs.Prelude.{◌≡◌, ◌<◌, ◌^◌};
ghost use Rattle.ch_contract.specs.Proposal.{AreFacts};
ghost use Rattle.ch_estimate.specs.Keys as keys;

use ch_contract::Facts;

/// 2^26, above every sum of the arcs into a node and out of it.
const RAISED: u64 = 67_108_864;

/// How many more arcs there are after the contraction than before it, and 2^26.
pub(crate) fn edge_difference(facts: &Facts) -> u64
    requires { AreFacts facts.now }
    ensures value { result ≡ keys.edge_difference facts.now }
    ensures low { result < 2 ^ 51 }
{
    let ins = u64::from(facts.ins);
    let outs = u64::from(facts.outs);
    RAISED + facts.shortcuts - (ins + outs)
}
