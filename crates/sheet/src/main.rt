// The program SHEET: a tape on standard input, its sheet on standard output, or the line of its
// refusal. All that is printed is made by `desk`. A read that fails ends the program with an error
// before anything is printed, and a write that fails ends it with an error too.
#![tactic(auto)]

ghost use Rattle.std.specs.Prelude.{IfSome, OnOk};
ghost use Rattle.std.specs.Io.KnownBytes.{Appends};
ghost use Rattle.desk.specs.Sheet.{printed};

use desk::SHEET_BYTES;
use intake::read_full;
use std::io::{self, Read, Write};

// "8,192 bytes suffice": of any tape the same is printed as of its first 8,192 bytes (desk,
// proofs/Enough.antt). The specs of desk have the same name (Sheet.antt).
const TAPE_BYTES: usize = 8_192;

// What is printed of all that stands in the input, where that is known.
fn print<R: Read, W: Write>(from: &mut R, to: &mut W) -> io::Result<()>
    ensures { OnOk result (IfSome (R.remaining from.old)
        (λ tape. Appends (W.contents to.old) (W.contents to.new) (printed tape))) }
{
    let mut tape = [0u8; TAPE_BYTES];
    let n = read_full(from, &mut tape)?;
    let mut out = [0u8; SHEET_BYTES];
    let k = desk::print(&tape[..n], &mut out);
    to.write_all(&out[..k])
}

fn main(rt: HostRuntime) -> io::Result<()> {
    print(&mut rt.stdin(), &mut rt.stdout())
}
