// Numbers of two, four and eight bytes, and flags in a byte. Document 01: "many-byte numbers are little-endian", "bits from 0 as
// the lowest". Rests on nothing.
#![tactic(auto)]

ghost use Rattle.std.specs.Prelude.{◌≡◌, ◌+◌, ◌≤◌, length};
ghost use Rattle.little_endian.specs.Numbers.{u16_at, u32_at, u64_at, u16_bytes, u32_bytes, u64_bytes};
ghost use Rattle.little_endian.specs.Flags.{flag_of};

// Kept: a function for each width, here and below. Its body is one call of the library on its bytes, so a trait over the three would be longer.
pub fn u16_at(s: &[u8], at: usize) -> u16
    requires { at + 2 ≤ length s.now }
    ensures { result ≡ u16_at s.now at }
{
    u16::from_le_bytes([s[at], s[at + 1]])
}

pub fn u32_at(s: &[u8], at: usize) -> u32
    requires { at + 4 ≤ length s.now }
    ensures { result ≡ u32_at s.now at }
{
    u32::from_le_bytes([s[at], s[at + 1], s[at + 2], s[at + 3]])
}

pub fn u64_at(s: &[u8], at: usize) -> u64
    requires { at + 8 ≤ length s.now }
    ensures { result ≡ u64_at s.now at }
{
    let b = &s[at..at + 8];
    u64::from_le_bytes([b[0], b[1], b[2], b[3], b[4], b[5], b[6], b[7]])
}

pub fn u16_bytes(x: u16) -> [u8; 2]
    ensures { result ≡ u16_bytes x }
{
    u16::to_le_bytes(x)
}

pub fn u32_bytes(x: u32) -> [u8; 4]
    ensures { result ≡ u32_bytes x }
{
    u32::to_le_bytes(x)
}

pub fn u64_bytes(x: u64) -> [u8; 8]
    ensures { result ≡ u64_bytes x }
{
    u64::to_le_bytes(x)
}

// A flag in a byte that is the sum of its flags. The bound is stated because such sums need it.
pub fn flag(set: bool, weight: u8) -> u8
    ensures { (result ≡ flag_of set weight) × (result ≤ weight) }
{
    if set { weight } else { 0 }
}
