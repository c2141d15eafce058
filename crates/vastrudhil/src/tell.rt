// An answer, told through the caller's numbers: the refusal's number comes back, and every other
// number that the answer tells is stored.
ghost use Rattle.std.specs.Prelude.{◌≡◌, ◌^◌, ◌<◌, ℤ, pos};
ghost use Rattle.answer.specs.Told.{told, told_amount, passes};
ghost use Rattle.tape.specs.Fields.{told_taken};
ghost use Rattle.writer.specs.Write.{told_written};
ghost use Rattle.desk.specs.Answer.{told_traverse};
ghost use Rattle.desk.specs.Sheet.{told_sheet};
ghost use Rattle.vastrudhil.specs.Face.{TellsStep, TellsAmount, TellsWritten, TellsReading};
ghost use Rattle.vastrudhil.specs.Face.{TellsPage, TellsTraverse, TellsRefusal, figures_of};

use crate::FIGURES;
use answer::{OutOfRange, Refusal, Refused};
use desk::Figures;
use tape::Control;
use whole::Whole;

// A value of a step: the number that it is told as, and the value of zero.
pub trait Value: Drop {
    ghost number: { Self → ℤ };

    fn zero() -> Self
        ensures { number result ≡ pos 0 };
}

impl Value for Whole {
    ghost number = { λ z. z.v };

    fn zero() -> Whole {
        Whole { v: 0 }
    }
}

impl Value for u64 {
    ghost number = { λ n. pos n };

    fn zero() -> u64 {
        0
    }
}

impl Value for bool {
    ghost number = { passes };

    fn zero() -> bool {
        false
    }
}

// What a step answers: its value is stored, or zero.
pub fn step<A: Value>(answer: Result<A, OutOfRange>, value: &mut A) -> u32
    ensures { TellsStep A.number (told A.number answer) value.new result }
{
    match answer {
        Ok(x) => {
            *value = x;
            0
        }
        Err(OutOfRange) => {
            *value = A::zero();
            Refusal::OutOfRange.number()
        }
    }
}

// An amount is stored as the caller's number.
pub fn amount(answer: Result<Whole, OutOfRange>, value: &mut i64) -> u32
    ensures { TellsAmount (told_amount answer) value.new result }
{
    let mut amount = Whole { v: 0 };
    let number = step(answer, &mut amount);
    *value = amount.v;
    number
}

// What refuses a tape or a record, if anything does: its place is stored, and its number comes
// back.
fn refusal(refused: Option<Refused>, place: &mut usize) -> u32
    ensures { TellsRefusal refused place.new result }
{
    match refused {
        None => {
            *place = 0;
            0
        }
        Some(r) => {
            *place = r.place;
            r.refusal.number()
        }
    }
}

pub fn written(a: Result<usize, Refused>, place: &mut usize, next: &mut usize) -> u32
    ensures { TellsWritten (told_written a) place.new next.new result }
{
    *next = a.unwrap_or(0);
    refusal(a.err(), place)
}

pub fn reading(a: Result<Control, Refused>, place: &mut usize) -> u32
    ensures { TellsReading (told_taken a) place.new result }
{
    refusal(a.err(), place)
}

// The figures of an answer, zeros for a refusal.
#[tactic(auto, unfolding(crate::specs::Face::figures_of))]
fn figures_of(a: Result<Figures, Refused>) -> [i64; FIGURES]
    requires { ((told_traverse a).legs < 2 ^ 63) × ((told_traverse a).precision < 2 ^ 63) }
    ensures { result ≡ figures_of (told_traverse a) }
{
    match a {
        Err(_) => [0; FIGURES],
        Ok(f) => {
            let legs = f.legs as i64;
            let precision = f.precision as i64;
            let looped = i64::from(f.looped);
            let (north, east) = (f.north_closure.v, f.east_closure.v);
            [legs, f.w.v, north, east, precision, f.area.v, looped]
        }
    }
}

pub fn answer(a: Result<Figures, Refused>, place: &mut usize, figures: &mut [i64; FIGURES]) -> u32
    requires { ((told_traverse a).legs < 2 ^ 63) × ((told_traverse a).precision < 2 ^ 63) }
    ensures { TellsTraverse (told_traverse a) place.new figures.new result }
{
    *figures = figures_of(a);
    refusal(a.err(), place)
}

pub fn page(a: Result<usize, Refused>, place: &mut usize, used: &mut usize) -> u32
    ensures { TellsPage (told_sheet a) place.new used.new result }
{
    *used = a.unwrap_or(0);
    refusal(a.err(), place)
}
