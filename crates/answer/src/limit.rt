// docs/RULES.md, "The tape": the limits that the tape's fields and the arithmetic steps share.
// specs/Limit.antt has the same names. A limit of a field of four bytes is a u32, as the field is;
// a step that works with wider numbers widens it once, in a constant of its own.

// "1 to 64 legs"
pub const MOST_LEGS: usize = 64;

// A factor is 9,990,000..10,010,000 ten-millionths: the least.
pub const LEAST_FACTOR: u32 = 9_990_000;

// A factor is 9,990,000..10,010,000 ten-millionths: the most.
pub const MOST_FACTOR: u32 = 10_010_000;

// A distance is 1,000..20,000,000 thousandths of a foot: the least.
pub const LEAST_DISTANCE: u32 = 1_000;

// A distance is 1,000..20,000,000 thousandths of a foot: the most.
pub const MOST_DISTANCE: u32 = 20_000_000;

// A mean elevation is -1,000..20,000 feet: the most feet below sea level.
pub const LOWEST: u64 = 1_000;

// A mean elevation is -1,000..20,000 feet: the most feet above sea level.
pub const HIGHEST: u64 = 20_000;

// A northing or an easting on the tape is 0..1,000,000,000 hundredths of a foot.
pub const MOST_COORDINATE: u32 = 1_000_000_000;
