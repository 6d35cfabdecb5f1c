// The lengths of the two texts and the pin limit, as 02's request 5 has them, each once; the other limits stand in the tree's own. The same numbers stand in specs/Limits;
// `limits_agree` fails where one of the two moves.
ghost use Rattle.std.specs.Prelude.{◌≡◌};
ghost use Rattle.formats.specs.Limits.{net_length_limit, listing_length_limit, pin_limit};

pub const NET_LENGTH_LIMIT: usize = 32_768;

pub const LISTING_LENGTH_LIMIT: usize = 32_768;

pub const PIN_LIMIT: u64 = 40_000_000;

// The constants are those of specs/Limits.
pub fn limits_agree()
    ensures net { NET_LENGTH_LIMIT ≡ net_length_limit }
    ensures listing { LISTING_LENGTH_LIMIT ≡ listing_length_limit }
    ensures pin { PIN_LIMIT ≡ pin_limit }
{}
