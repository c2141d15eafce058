// The angles: azimuths carried along the legs, the misclosure W, and the balanced azimuths.
ghost use Rattle.std.specs.Prelude.{◌≡◌, ◌+◌, ◌≤◌, ◌<◌, nat_abs};
ghost use Rattle.answer.specs.Limit.{most_legs};
ghost use Rattle.minutes.specs.Quadrant.{circle, half_circle};
ghost use Rattle.steps.specs.Azimuth.{from_mark, onward, misclosure, closes_angles, balanced};
ghost use Rattle.steps.specs.Share.{share};
ghost use Rattle.tape.specs.Fields.{fields_of};
ghost use Rattle.whole.specs.Filled.{filled};
ghost use Rattle.desk.specs.Angles.{turns_of};
ghost use Rattle.desk.specs.Inside.{Known, Scaled, AllTurned, Shareable, no_legs, carried_leg};
ghost use Rattle.desk.specs.Inside.{balanced_in, frame_of};
ghost use Rattle.desk.specs.Turns.{carried};

use crate::{Frame, Leg, factor};
use answer::limit::MOST_LEGS;
use tape::Control;
use whole::Whole;

// The azimuth of leg 1.
fn first(mark: u32, angle: u32) -> u32
    requires { (mark < circle) × (angle < circle) }
    ensures is { result ≡ from_mark mark angle }
    ensures turned { result < circle }
{
    steps::azimuth::from_mark(mark, angle).unwrap() as u32
}

// The azimuth of each next leg.
fn next(before: u32, angle: u32) -> u32
    requires { (before < circle) × (angle < circle) }
    ensures is { result ≡ onward before angle }
    ensures turned { result < circle }
{
    steps::azimuth::onward(before, angle).unwrap() as u32
}

// The legs with the azimuths carried to them into the lent list; what comes back is the azimuth
// carried to the closing mark. The legs are walked from the first to the close, whose angle is the
// closing one.
pub fn carry(tape: &[u8], c: Control, legs: &mut [Leg; MOST_LEGS]) -> u32
    requires known { Known tape.now c }
    requires none_yet { legs.old ≡ no_legs }
    ensures closing { result ≡ carried (turns_of (fields_of tape.now)) c.legs }
    ensures legs { legs.new ≡ filled (carried_leg (fields_of tape.now)) c.legs no_legs }
{
    let mut sight = tape::sight_at(tape, c.line);
    let mut azimuth = first(c.mark, sight.angle);
    for leg in &mut legs[..c.legs] {
        *leg = Leg {
            azimuth,
            distance: sight.distance,
        };
        sight = tape::sight_at(tape, sight.next);
        azimuth = next(azimuth, sight.angle);
    }
    azimuth
}

// The misclosure W.
pub fn misclosure_of(closing: u32, given: u32) -> Whole
    requires { (closing < circle) × (given < circle) }
    ensures is { result.v ≡ misclosure closing given }
    ensures size { nat_abs result.v ≤ half_circle }
{
    steps::azimuth::misclosure(closing, given).unwrap()
}

// Whether the misclosure is within its limit.
pub fn angles_close(w: Whole, legs: usize) -> bool
    requires { (nat_abs w.v ≤ half_circle) × (1 ≤ legs) × (legs ≤ most_legs) }
    ensures { result ≡ closes_angles w.v legs }
{
    steps::azimuth::closes_angles(w, legs as u64).unwrap()
}

// The balanced azimuth of a leg at the j-th of the angles that share W; its carried one is given.
fn balanced_azimuth(azimuth: u32, w: Whole, j: usize, angles: usize) -> u32
    requires azimuth_lt_circle { azimuth < circle }
    requires v_bound { nat_abs w.v ≤ half_circle }
    requires j_le_angles { (j ≤ angles) × (2 ≤ angles) × (angles ≤ most_legs + 1) }
    ensures is { result ≡ balanced azimuth (share w.v j angles) }
    ensures turned { result < circle }
{
    let part = steps::share::angle_share(w, j as u64, (angles - 1) as u64).unwrap();
    steps::azimuth::balanced(azimuth, part).unwrap() as u32
}

// The balanced azimuths of the first n legs, instead of the carried ones. `ahead` angles stand
// before leg 1, and `angles` share W.
pub fn balance(w: Whole, n: usize, ahead: usize, angles: usize, legs: &mut [Leg; MOST_LEGS])
    requires v_bound { nat_abs w.v ≤ half_circle }
    requires shareable { Shareable n ahead angles }
    requires all_turned { AllTurned n legs.old }
    ensures { legs.new ≡ balanced_in w.v ahead angles n legs.old }
{
    for (k, leg) in legs[..n].iter_mut().enumerate() {
        leg.azimuth = balanced_azimuth(leg.azimuth, w, k + ahead, angles);
    }
}

// The traverse with its angles balanced, but for its legs; `angles` of them share W.
pub fn frame(c: Control, angles: usize, w: Whole) -> Frame
    requires { Scaled c }
    ensures { result ≡ frame_of c angles w }
{
    let factor = factor::combined(c.elevation, c.scale);
    let from = c.from;
    let to = c.to;
    Frame {
        legs: c.legs,
        angles,
        w,
        factor,
        from,
        to,
        place: c.place,
    }
}
