// The circle in tenths of a second. specs/Quadrant.antt has the same names.

// "angles in tenths of a second (circle 12,960,000)": 360 degrees.
pub const CIRCLE: u32 = 12_960_000;

// 180 degrees, half a circle.
pub const HALF_CIRCLE: u32 = 6_480_000;

// 90 degrees, where the first quadrant ends.
pub const QUARTER_CIRCLE: u32 = 3_240_000;

// 270 degrees, where the third quadrant ends.
pub const THREE_QUARTERS: u32 = 9_720_000;

// A minute of the circle has 60 seconds, so 600 tenths.
pub const TENTHS_IN_MINUTE: u32 = 600;
