// Vectors of the grid, in hundredths of a foot: where a station lies, from the origin or from
// another station, how far a leg leads, and what is left at the end of the line.
ghost use Rattle.std.specs.Prelude.{◌≡◌, ◌*◌, ◌≤◌, ◌^◌, nat_abs, ◌*ℤ◌, ◌-ℤ◌};
ghost use Rattle.steps.specs.Area.{most_offset};
ghost use Rattle.desk.specs.Inside.{Bounded, sum_bound, sum_of, less, of_point};

use steps::course::Moves;
use tape::Point;
use whole::Whole;

#[derive(Clone, Copy, Debug, PartialEq, Eq)]
pub struct Vector {
    pub north: Whole,
    pub east: Whole,
}

impl Vector {
    pub(crate) fn plus(self, b: Vector) -> Vector
        requires { Bounded sum_bound self × Bounded sum_bound b }
        ensures { result ≡ sum_of self b }
    {
        Vector {
            north: self.north.plus(b.north),
            east: self.east.plus(b.east),
        }
    }

    pub(crate) fn minus(self, b: Vector) -> Vector
        requires { Bounded sum_bound self × Bounded sum_bound b }
        ensures { result ≡ less self b }
    {
        Vector {
            north: self.north.minus(b.north),
            east: self.east.minus(b.east),
        }
    }

    // Twice the area of the triangle that two vectors make.
    pub(crate) fn cross(self, b: Vector) -> Whole
        requires { Bounded most_offset self × Bounded most_offset b }
        ensures is { result.v ≡ self.north.v *ℤ b.east.v -ℤ b.north.v *ℤ self.east.v }
        ensures size { nat_abs result.v ≤ 2 * most_offset * most_offset }
    {
        self.north.times(b.east).minus(b.north.times(self.east))
    }
}

// From the origin of the grid to a point of it.
impl From<Point> for Vector {
    ghost from_gives = { λ p v. v ≡ of_point p };

    fn from(p: Point) -> Vector {
        Vector {
            north: Whole::from(p.north),
            east: Whole::from(p.east),
        }
    }
}

// As far as a leg moves.
impl From<Moves> for Vector {
    ghost from_gives = { λ m v. v ≡ record { north = m.north; east = m.east } };

    fn from(m: Moves) -> Vector {
        Vector {
            north: m.north,
            east: m.east,
        }
    }
}
