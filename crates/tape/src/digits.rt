// The numbers that bytes spell, the high byte first.
#![tactic(auto, using(crate::proofs::Numbers::spelled))]

ghost use Rattle.std.specs.Prelude.{◌≡◌, ◌+◌, ◌<◌, ◌≤◌, length};
ghost use Rattle.records.specs.Bytes.{num, two, four, meant, twos_complement};

use whole::Whole;

pub fn two_at(s: &[u8], at: usize) -> u32
    requires { at + 2 ≤ length s.now }
    ensures { (result ≡ num two s.now at) × (result < 65536) }
{
    u32::from(u16::from_be_bytes([s[at], s[at + 1]]))
}

pub fn four_at(s: &[u8], at: usize) -> u32
    requires { at + 4 ≤ length s.now }
    ensures { result ≡ num four s.now at }
{
    u32::from_be_bytes([s[at], s[at + 1], s[at + 2], s[at + 3]])
}

// Two bytes in two's complement.
pub fn signed_at(s: &[u8], at: usize) -> Whole
    requires { at + 2 ≤ length s.now }
    ensures is { result.v ≡ meant twos_complement two (num two s.now at) }
{
    Whole {
        v: i64::from(i16::from_be_bytes([s[at], s[at + 1]])),
    }
}
