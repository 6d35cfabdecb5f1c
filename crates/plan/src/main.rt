// Reads a net on standard input and prints the listing of its plan, or the refusal. A refusal is told in words on standard error too.
#![tactic(auto)]

use console::program::run_plan;
use first_plan::plan::FirstPlan;

fn main(rt: HostRuntime) {
    run_plan::<FirstPlan, _, _, _>(&mut rt.stdin(), &mut rt.stdout(), &mut rt.stderr());
}
