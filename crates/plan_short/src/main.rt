// Reads a net on standard input and prints the listing of its short tree, or the refusal. A refusal is told in words on standard error too.
#![tactic(auto)]

use console::program::run_plan;
use short_tree::plan_short::ShortTree;

fn main(rt: HostRuntime) {
    run_plan::<ShortTree, _, _, _>(&mut rt.stdin(), &mut rt.stdout(), &mut rt.stderr());
}
