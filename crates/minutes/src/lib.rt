// The table of sines: "the nine-decimal sine of every whole minute from 0 to 90 degrees, 5,401
// entries", in units of the ninth decimal.
//
// It is a constant, and every sine of the desk is read from it where it stands (`own`). A caller
// that takes it into a table of its own may lend that to the functions that end in `_in`.
#![tactic(auto)]

ghost use Rattle.minutes.specs.Entry.{Table};

mod constant;
pub mod quadrant;

// 1 in units of the ninth decimal: the sine of 90 degrees, and no sine is above it.
pub const NINE_DECIMALS: u32 = 1_000_000_000;

// The minute of 90 degrees: "every whole minute from 0 to 90 degrees".
pub const LAST_MINUTE: usize = 5_400;

// "5,401 entries": that of 0 degrees is one of them.
pub const ENTRIES: usize = 5_401;

// The table by value.
pub fn table() -> [u32; ENTRIES]
    ensures { Table result }
{
    constant::MINUTES
}

// The table where it stands, once in the program: nothing is laid out.
pub fn own() -> &'static [u32; ENTRIES]
    ensures { Table result.now }
{
    &constant::MINUTES
}
