// The ranges of 01 as 02's requests 4, 5 and 7 have them, each once. The same numbers stand in specs/Limits; `limits_agree` fails where one of the two moves.
ghost use Rattle.std.specs.Prelude.{◌≡◌};
ghost use Rattle.tree.specs.Limits.{position_limit, branch_limit, wire_factor_limit, need_limit, sink_limit, required_limit, slack_limit, wire_limit, weight_limit};

pub const POSITION_LIMIT: u64 = 100_000_000;

pub const BRANCH_LIMIT: u64 = 1_000_000_000;

pub const WIRE_FACTOR_LIMIT: u64 = 10_000;

pub const NEED_LIMIT: u64 = 2_000_000_000_000_000;

pub const SINK_LIMIT: u64 = 512;

pub const REQUIRED_LIMIT: u64 = 1_000_000_000_000_000;

pub const SLACK_LIMIT: u64 = 4_000_000_000_000_000;

pub const WIRE_LIMIT: u64 = 1_000_000_000_000;

pub const WEIGHT_LIMIT: u64 = 1_000;

// The constants are those of specs/Limits.
pub fn limits_agree()
    ensures position { POSITION_LIMIT ≡ position_limit }
    ensures branch { BRANCH_LIMIT ≡ branch_limit }
    ensures wire_factor { WIRE_FACTOR_LIMIT ≡ wire_factor_limit }
    ensures need { NEED_LIMIT ≡ need_limit }
    ensures sinks { SINK_LIMIT ≡ sink_limit }
    ensures required { REQUIRED_LIMIT ≡ required_limit }
    ensures slack { SLACK_LIMIT ≡ slack_limit }
    ensures wire { WIRE_LIMIT ≡ wire_limit }
    ensures weight { WEIGHT_LIMIT ≡ weight_limit }
{}
