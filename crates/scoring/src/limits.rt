// The ranges of 02's request 8, each once. The same numbers stand in specs/Limits; `limits_agree` fails where one of the two moves.
ghost use Rattle.std.specs.Prelude.{◌≡◌};
ghost use Rattle.scoring.specs.Limits.{parts, cap_limit, late_limit};

// The parts that a weight of 1 has; A and B are from 0 to it.
pub const PARTS: u64 = 1_024;

pub const CAP_LIMIT: u64 = 1_000_000_000_000;

// Minus this is the least slack that is scored.
pub const LATE_LIMIT: u64 = 1_000_000_000_000;

// The constants are those of specs/Limits.
pub fn limits_agree()
    ensures parts { PARTS ≡ parts }
    ensures cap { CAP_LIMIT ≡ cap_limit }
    ensures late { LATE_LIMIT ≡ late_limit }
{}
