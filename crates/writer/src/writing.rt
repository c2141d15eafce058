// The stores of a record at the front of the bytes lent on, a function for each kind. A number of
// two bytes is the lower half of one of four.
#![tactic(auto, unfolding(records::specs::Record::body_of))]

ghost use Rattle.std.specs.Prelude.{◌≡◌, ◌++◌, [], ◌∷◌, ◌+◌, ◌≤◌, length, drop, set, pos, nat_abs};
ghost use Rattle.std.proofs.lemmas.List.Edits.{sets};
ghost use Rattle.records.specs.Kinds.{byte_of};
ghost use Rattle.records.specs.Bytes.{two, written};
ghost use Rattle.answer.specs.Limit.{highest};
ghost use Rattle.records.specs.Record.{row_kind, project_kind, start_kind, leg_kind, close_kind};
ghost use Rattle.records.specs.Record.{body_of, bytes_of};

use records::Kind;
use whole::Whole;

// ---- a kind, and the bytes of a field
fn put_kind(out: &mut [u8], kind: Kind)
    requires { 1 ≤ length out.old }
    ensures { out.new ≡ set out.old 0 (byte_of kind) }
{
    out[0] = kind.byte();
}

#[tactic(auto, using(crate::proofs::writing::Stores::put_at))]
fn put(out: &mut [u8], at: usize, field: &[u8])
    requires { at + length field.now ≤ length out.old }
    ensures { out.new ≡ sets out.old at field.now }
{
    out[at..at + field.len()].copy_from_slice(field);
}

// ---- a record at the front of the bytes lent on
pub fn put_row(out: &mut [u8], minute: u32, factor: u32)
    requires { 1 + body_of row_kind ≤ length out.old }
    ensures { out.new
        ≡ bytes_of row_kind (pos minute ∷ pos factor ∷ [])
        ++ drop (1 + body_of row_kind) out.old }
{
    put_kind(out, Kind::Row);
    put(out, 1, &minute.to_be_bytes()[2..]);
    put(out, 3, &factor.to_be_bytes());
}

pub fn put_project(out: &mut [u8], latitude: u32, elevation: Whole)
    requires project_kind_in_bounds { 1 + body_of project_kind ≤ length out.old }
    requires v_bound { nat_abs elevation.v ≤ highest }
    ensures { out.new
        ≡ bytes_of project_kind (pos latitude ∷ elevation.v ∷ [])
        ++ drop (1 + body_of project_kind) out.old }
{
    put_kind(out, Kind::Project);
    put(out, 1, &latitude.to_be_bytes()[2..]);
    put(out, 3, &(elevation.v as i16).to_be_bytes());
}

pub fn put_start(out: &mut [u8], northing: u32, easting: u32, mark: u32)
    requires { 1 + body_of start_kind ≤ length out.old }
    ensures { out.new
        ≡ bytes_of start_kind (pos northing ∷ pos easting ∷ pos mark ∷ [])
        ++ drop (1 + body_of start_kind) out.old }
{
    put_kind(out, Kind::Start);
    put(out, 1, &northing.to_be_bytes());
    put(out, 5, &easting.to_be_bytes());
    put(out, 9, &mark.to_be_bytes());
}

pub fn put_leg(out: &mut [u8], angle: u32, distance: u32)
    requires { 1 + body_of leg_kind ≤ length out.old }
    ensures { out.new
        ≡ bytes_of leg_kind (pos angle ∷ pos distance ∷ [])
        ++ drop (1 + body_of leg_kind) out.old }
{
    put_kind(out, Kind::Leg);
    put(out, 1, &angle.to_be_bytes());
    put(out, 5, &distance.to_be_bytes());
}

pub fn put_close(out: &mut [u8], angle: u32, northing: u32, easting: u32, mark: u32)
    requires { 1 + body_of close_kind ≤ length out.old }
    ensures { out.new
        ≡ bytes_of close_kind (pos angle ∷ pos northing ∷ pos easting ∷ pos mark ∷ [])
        ++ drop (1 + body_of close_kind) out.old }
{
    put_kind(out, Kind::Close);
    put(out, 1, &angle.to_be_bytes());
    put(out, 5, &northing.to_be_bytes());
    put(out, 9, &easting.to_be_bytes());
    put(out, 13, &mark.to_be_bytes());
}
