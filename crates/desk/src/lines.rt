// The lines of the sheet, each put after the one before.
// Kept: the lines are put by the writers of `text`, each from a place on, since each promise names
// every byte.
ghost use Rattle.std.specs.Prelude.{◌≡◌, ◌++◌, ◌+◌, ◌^◌, ◌≤◌, Ok};
ghost use Rattle.answer.specs.Limit.{most_legs};
ghost use Rattle.text.specs.Text.{ascii, decimal, plain, amount};
ghost use Rattle.text.specs.Room.{Room, Put};
ghost use Rattle.desk.specs.Sheet.{closures_text, close_line, line_of, station_lines};
ghost use Rattle.desk.specs.Sheet.{area_line, text_of, foot_decimals};
ghost use Rattle.desk.specs.Answer.{most_stations, told_traverse};

use crate::vector::Vector;
use crate::{Figures, STATION_WORDS, coordinates};
use text::Quantity;
use whole::Whole;

// ---- the decimals of what is printed: tenths of a second, hundredths of a foot, ten-thousandths
// of a square foot
const SECOND_DECIMALS: u32 = 1;

const FOOT_DECIMALS: u32 = 2;

const AREA_DECIMALS: u32 = 4;

// A name, and a quantity after it.
fn put_named(out: &mut [u8], at: usize, name: &[u8], plus: &[u8], q: Quantity) -> usize
    requires { Room out.old at
        (name.now ++ amount plus.now q.decimals q.amount.v) }
    ensures { Put out.old at
        (name.now ++ amount plus.now q.decimals q.amount.v)
        out.new result }
{
    let i = text::put(out, at, name);
    text::put_amount(out, i, plus, q)
}

// A name, and a length in feet after it.
fn put_feet(out: &mut [u8], at: usize, name: &[u8], plus: &[u8], z: Whole) -> usize
    requires { Room out.old at (name.now ++ amount plus.now foot_decimals z.v) }
    ensures { Put out.old at
        (name.now ++ amount plus.now foot_decimals z.v)
        out.new result }
{
    let feet = Quantity {
        amount: z,
        decimals: FOOT_DECIMALS,
    };
    put_named(out, at, name, plus, feet)
}

fn put_closures(out: &mut [u8], f: Figures) -> usize
    requires { Room out.old 0 (closures_text f.w.v f.north_closure.v f.east_closure.v) }
    ensures { Put out.old 0 (closures_text f.w.v f.north_closure.v f.east_closure.v)
        out.new result }
{
    let seconds = Quantity {
        amount: f.w,
        decimals: SECOND_DECIMALS,
    };
    let i = put_named(out, 0, b"CLOSE W=", b"+", seconds);
    let j = put_feet(out, i, b" N=", b"+", f.north_closure);
    put_feet(out, j, b" E=", b"+", f.east_closure)
}

// A count between a word and the line feed.
pub fn put_count(out: &mut [u8], at: usize, name: &[u8], n: u64) -> usize
    requires { Room out.old at (name.now ++ decimal n ++ ascii "\n") }
    ensures { Put out.old at (name.now ++ decimal n ++ ascii "\n")
        out.new result }
{
    let i = text::put(out, at, name);
    let j = text::put_decimal(out, i, n);
    text::put(out, j, b"\n")
}

// The first line: the misclosure, both closures and the precision number.
fn put_first(out: &mut [u8], f: Figures) -> usize
    requires { Room out.old 0 (close_line f.w.v f.north_closure.v f.east_closure.v f.precision) }
    ensures { Put out.old 0 (close_line f.w.v f.north_closure.v f.east_closure.v f.precision)
        out.new result }
{
    let i = put_closures(out, f);
    put_count(out, i, b" P=", f.precision)
}

fn put_coordinates(out: &mut [u8], at: usize, p: Vector) -> usize
    requires { Room out.old at
        ((ascii " " ++ plain 2 p.north.v) ++ (ascii " " ++ plain 2 p.east.v) ++ ascii "\n") }
    ensures { Put out.old at
        ((ascii " " ++ plain 2 p.north.v) ++ (ascii " " ++ plain 2 p.east.v) ++ ascii "\n")
        out.new result }
{
    let i = put_feet(out, at, b" ", b"", p.north);
    let j = put_feet(out, i, b" ", b"", p.east);
    text::put(out, j, b"\n")
}

// The line of station k.
fn put_station(out: &mut [u8], at: usize, words: &[i64; STATION_WORDS], k: usize) -> usize
    requires k_le_most_legs { k ≤ most_legs }
    requires room { Room out.old at (line_of words.now k) }
    ensures { Put out.old at (line_of words.now k)
        out.new result }
{
    let i = text::put_decimal(out, at, k as u64);
    put_coordinates(out, i, coordinates::station(words, k))
}

// The lines of the stations below n.
fn put_stations(out: &mut [u8], at: usize, words: &[i64; STATION_WORDS], n: usize) -> usize
    requires n_le_most_stations { n ≤ most_stations }
    requires room { Room out.old at (station_lines words.now n) }
    ensures { Put out.old at (station_lines words.now n)
        out.new result }
{
    let mut i = at;
    for k in 0..n {
        i = put_station(out, i, words, k);
    }
    i
}

// The last line, which only a loop has.
fn put_area(out: &mut [u8], at: usize, area: Whole, looped: bool) -> usize
    requires { Room out.old at (area_line area.v looped) }
    ensures { Put out.old at (area_line area.v looped) out.new result }
{
    if looped {
        let square_feet = Quantity {
            amount: area,
            decimals: AREA_DECIMALS,
        };
        let i = put_named(out, at, b"AREA2 ", b"", square_feet);
        return text::put(out, i, b"\n");
    }
    at
}

// The whole sheet, from the first lent byte.
pub fn put_all(out: &mut [u8], f: Figures, words: &[i64; STATION_WORDS]) -> usize
    requires legs_le_most_legs { f.legs ≤ most_legs }
    requires room { Room out.old 0 (text_of (told_traverse (Ok f)) words.now) }
    ensures { Put out.old 0
        (text_of (told_traverse (Ok f)) words.now)
        out.new result }
{
    let i = put_first(out, f);
    let j = put_stations(out, i, words, f.legs + 1);
    put_area(out, j, f.area, f.looped)
}
