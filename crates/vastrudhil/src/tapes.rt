// A whole tape: its reading, its traverse and its sheet.
ghost use Rattle.std.specs.Prelude.{◌≡◌, length};
ghost use Rattle.minutes.specs.Entry.{entry};
ghost use Rattle.sines.specs.Sine.{entry_in};
ghost use Rattle.tape.specs.Tape.{reading_of};
ghost use Rattle.tape.specs.Tape.{told_reading};
ghost use Rattle.desk.specs.Answer.{traversed, traversed_words, traversed_by, traversed_words_by};
ghost use Rattle.vastrudhil.specs.Face.{TellsReading, TellsTraverse, ShowsSheet};

use crate::{FIGURES, tell};
use minutes::ENTRIES;

// The reading, by refusals 2 to 7: by `take`, as the traverse and the sheet read.
#[unsafe(no_mangle)]
pub extern "C" fn vas_read(tape: &[u8], place: &mut usize) -> u32
    ensures { TellsReading (told_reading (reading_of tape.now))
        place.new result }
{
    tell::reading(tape::take(tape), place)
}

// The traverse, its stations in the caller's words.
#[unsafe(no_mangle)]
pub extern "C" fn vas_traverse(
    tape: &[u8],
    words: &mut [i64],
    place: &mut usize,
    figures: &mut [i64; FIGURES],
) -> u32
    ensures told { TellsTraverse
        (traversed tape.now (length words.old))
        place.new figures.new result }
    ensures words { words.new
        ≡ traversed_words tape.now words.old }
{
    tell::answer(desk::traverse(tape, words), place, figures)
}

// The traverse by the sines of a lent table, whatever it holds.
#[unsafe(no_mangle)]
pub extern "C" fn vas_traverse_in(
    table: &[u32; ENTRIES],
    tape: &[u8],
    words: &mut [i64],
    place: &mut usize,
    figures: &mut [i64; FIGURES],
) -> u32
    ensures told { TellsTraverse
        (traversed_by (entry_in table.now) tape.now
        (length words.old))
        place.new figures.new result }
    ensures words { words.new
        ≡ traversed_words_by (entry_in table.now) tape.now
        words.old }
{
    tell::answer(desk::traverse_in(table, tape, words), place, figures)
}

// The sheet, its text in the caller's bytes.
#[unsafe(no_mangle)]
pub extern "C" fn vas_sheet(tape: &[u8], out: &mut [u8], place: &mut usize, used: &mut usize) -> u32
    ensures { ShowsSheet entry tape.now out.old out.new
        place.new used.new result }
{
    tell::page(desk::sheet(tape, out), place, used)
}

// The sheet by the sines of a lent table, whatever it holds.
#[unsafe(no_mangle)]
pub extern "C" fn vas_sheet_in(
    table: &[u32; ENTRIES],
    tape: &[u8],
    out: &mut [u8],
    place: &mut usize,
    used: &mut usize,
) -> u32
    ensures { ShowsSheet (entry_in table.now) tape.now
        out.old out.new
        place.new used.new result }
{
    tell::page(desk::sheet_in(table, tape, out), place, used)
}
