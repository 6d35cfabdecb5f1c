// The bytes that have a meaning in the two texts.
pub const ZERO: u8 = b'0';

pub const MINUS: u8 = b'-';

pub const COMMA: u8 = b',';

pub const END: u8 = b'\n';
