// Reads a net on standard input and prints the listing of its tree by switching weights, or the refusal. A refusal is told in words on standard error too.
#![tactic(auto)]

use console::program::run_plan;
use weighted_tree::plan_weighted::WeightedTree;

fn main(rt: HostRuntime) {
    run_plan::<WeightedTree, _, _, _>(&mut rt.stdin(), &mut rt.stdout(), &mut rt.stderr());
}
