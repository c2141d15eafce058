// The two digits of each number below 100, one pair after the other.
ghost use Rattle.std.specs.Prelude.{◌+◌, ◌<◌, ◌≤◌, length};
ghost use Rattle.text.specs.Text.{digits};
ghost use Rattle.text.specs.Room.{Put};

static PAIRS: [u8; 200] = *b"\
    0001020304050607080910111213141516171819\
    2021222324252627282930313233343536373839\
    4041424344454647484950515253545556575859\
    6061626364656667686970717273747576777879\
    8081828384858687888990919293949596979899";

// Both digits of a number below 100.
pub fn put_pair(out: &mut [u8], at: usize, n: u64)
    requires below { n < 100 }
    requires room { at + 2 ≤ length out.old }
    ensures { Put out.old at (digits 2 n) out.new (at + 2) }
{
    let from = 2 * n as usize;
    let (tens, units) = (PAIRS[from], PAIRS[from + 1]);
    out[at] = tens;
    out[at + 1] = units;
}
