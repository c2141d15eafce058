// The figures of the text's numbers: how degrees, minutes and seconds make an angle or a latitude,
// and how many decimals each number has. A number is in units of its last decimal, as on the tape.
pub use minutes::quadrant::TENTHS_IN_MINUTE;

// A degree has 60 minutes: the minutes of an angle and of a latitude are below this.
pub const MINUTES_IN_DEGREE: u32 = 60;

// A degree has 36,000 tenths of a second.
pub const TENTHS_IN_DEGREE: u32 = MINUTES_IN_DEGREE * TENTHS_IN_MINUTE;

// A second has 10 tenths.
pub const TENTHS_IN_SECOND: u32 = 10;

// "angles in tenths of a second": the decimals of the seconds.
pub const SECONDS_DECIMALS: usize = 1;

// "factors in ten-millionths"
pub const FACTOR_DECIMALS: usize = 7;

pub const FACTOR_UNITS: u32 = 10_000_000;

// Northings and eastings are in hundredths of a foot.
pub const COORDINATE_DECIMALS: usize = 2;

pub const COORDINATE_UNITS: u32 = 100;

// Distances are in thousandths of a foot.
pub const DISTANCE_DECIMALS: usize = 3;

pub const DISTANCE_UNITS: u32 = 1_000;
