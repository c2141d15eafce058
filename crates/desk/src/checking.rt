// The first step of a tape that reads: the misclosure and the balanced azimuths, or refusal 8.
ghost use Rattle.std.specs.Prelude.{◌≡◌, ◌+◌, ◌≤◌, nat_abs};
ghost use Rattle.answer.specs.Limit.{most_legs};
ghost use Rattle.minutes.specs.Quadrant.{half_circle};
ghost use Rattle.tape.specs.Fields.{fields_of};
ghost use Rattle.desk.specs.Answer.{checked_angles};
ghost use Rattle.desk.specs.Inside.{Known, Scaled, AllTurned, no_legs, balanced_in, frame_of};
ghost use Rattle.desk.specs.Inside.{checked_as};

use crate::{Frame, Leg, angles};
use answer::limit::MOST_LEGS;
use answer::{Refusal, Refused};
use tape::Control;
use whole::Whole;

// How many angles stand before leg 1: the angle right from the mark.
const AHEAD: usize = 1;

// W shared out over all angles, the closing one among them: the azimuths of the legs are balanced.
fn share_out(c: Control, w: Whole, legs: &mut [Leg; MOST_LEGS]) -> Frame
    requires v_bound { (nat_abs w.v ≤ half_circle) × (1 ≤ c.legs) × (c.legs ≤ most_legs) }
    requires scaled { Scaled c }
    requires all_turned { AllTurned c.legs legs.old }
    ensures frame { result ≡ frame_of c (c.legs + 1) w }
    ensures legs { legs.new ≡ balanced_in w.v 1 (c.legs + 1) c.legs legs.old }
{
    let shared = c.legs + 1;
    angles::balance(w, c.legs, AHEAD, shared, legs);
    angles::frame(c, shared, w)
}

// The misclosure is tested before anything is balanced. The legs are left in the lent list.
pub fn check_angles(tape: &[u8], c: Control, legs: &mut [Leg; MOST_LEGS]) -> Result<Frame, Refused>
    requires known { Known tape.now c }
    requires none_yet { legs.old ≡ no_legs }
    ensures { checked_as result legs.new
        ≡ checked_angles (fields_of tape.now) }
{
    let closing = angles::carry(tape, c, legs);
    let w = angles::misclosure_of(closing, c.given);
    if angles::angles_close(w, c.legs) {
        return Ok(share_out(c, w, legs));
    }
    Err(Refused {
        refusal: Refusal::BadAngles,
        place: c.place,
    })
}
