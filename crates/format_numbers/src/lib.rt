// Numbers in a slice of bytes, and fields in their ranges. Numbers are little-endian; a signed number x of 32 bits is
// x + 2^31 inside and two's complement in a slice.
#![tactic(auto)]

ghost use Rattle.std.specs.Prelude.{◌≡◌, true, ◌+◌, ◌*◌, ◌≤◌, ◌<◌, max, length};
ghost use Rattle.model.specs.Numbers.{word, le32_at, le32, le64_at, le64, signed_at, signed32, flip, zero_at, zeros3_at, quad, starts_with, byte_at};
ghost use Rattle.model.specs.Tables.{written};
ghost use Rattle.model.specs.Plan.{in_range};
ghost use Rattle.model_laws.specs.Bytes.{part};
ghost use Rattle.model.specs.Rules.{in_arguments, argument_ok};
ghost use Rattle.model.specs.Packets.{id_ok, done_ok, command_ok, outcome_ok, time_at};

use model::constants::{
    ARGUMENT_RANGES, FAULT_OP, HALF, LAST_IN_WINDOW, LAST_OUTCOME, LAST_POINT, LAST_QUALITY,
    PART_OP, READ_OP, REPORT_OP, SET_OP, STEP_OP, WORD,
};
use model::{ArgumentRange, PlanEntry};

// ---- numbers

// The number of two numbers of 32 bits, the lower first.
fn join_words(low: u32, high: u32) -> u64
    ensures { result ≡ low + word * high }
{
    low as u64 + WORD * (high as u64)
}

// The number in the 4 bytes from at.
pub fn read_u32(s: &[u8], at: usize) -> u32
    requires { at + 4 ≤ length s.now }
    ensures { result ≡ le32_at s.now at }
{
    u32::from_le_bytes([s[at], s[at + 1], s[at + 2], s[at + 3]])
}

// The number in the 8 bytes from at. It is read as two words, as the model states it: eight bytes would be no plainer.
pub fn read_u64(s: &[u8], at: usize) -> u64
    requires { at + 8 ≤ length s.now }
    ensures { result ≡ le64_at s.now at }
{
    join_words(read_u32(s, at), read_u32(s, at + 4))
}

// The time in the 4 bytes from at, in the form that has one; 0 in the other.
pub fn time_at(s: &[u8], timed: bool, at: usize) -> u32
    requires { timed ≡ true → at + 4 ≤ length s.now }
    ensures { result ≡ time_at timed s.now at }
{
    if timed { read_u32(s, at) } else { 0 }
}

// Stores 4 bytes from at. They are four arguments, since an array would be no plainer: each caller has four fields.
pub fn write_4(s: &mut [u8], at: usize, b0: u8, b1: u8, b2: u8, b3: u8)
    requires { at + 4 ≤ length s.old }
    ensures { s.new ≡ written s.old at (quad b0 b1 b2 b3) }
{
    s[at] = b0;
    s[at + 1] = b1;
    s[at + 2] = b2;
    s[at + 3] = b3;
}

// Stores a magic at the front.
pub fn write_magic(s: &mut [u8], magic: [u8; 4])
    requires { 4 ≤ length s.old }
    ensures { s.new
        ≡ written s.old 0 (quad (byte_at magic 0) (byte_at magic 1) (byte_at magic 2) (byte_at magic 3)) }
{
    copy_bytes(s, &magic);
}

// Stores v in the 4 bytes from at.
pub fn write_u32(s: &mut [u8], at: usize, v: u32)
    requires { at + 4 ≤ length s.old }
    ensures { s.new ≡ written s.old at (le32 v) }
{
    let bytes = v.to_le_bytes();
    write_4(s, at, bytes[0], bytes[1], bytes[2], bytes[3]);
}

// Stores a value in the 8 bytes from at.
pub fn write_u64(s: &mut [u8], at: usize, value: u64)
    requires { at + 8 ≤ length s.old }
    ensures { s.new ≡ written s.old at (le64 value) }
{
    write_u32(s, at, (value % WORD) as u32);
    write_u32(s, at + 4, (value / WORD) as u32);
}

// Two's complement to v + 2^31, and back. By cases, as the model states it: a sum that wraps would be no plainer.
pub fn flipped(v: u32) -> u32
    ensures { result ≡ flip v }
{
    if v < HALF { v + HALF } else { v - HALF }
}

// The signed number in the 4 bytes from at.
pub fn read_signed(s: &[u8], at: usize) -> u32
    requires { at + 4 ≤ length s.now }
    ensures { result ≡ signed_at s.now at }
{
    flipped(read_u32(s, at))
}

// Stores the signed number v in the 4 bytes from at.
pub fn write_signed(s: &mut [u8], at: usize, v: u32)
    requires { at + 4 ≤ length s.old }
    ensures { s.new ≡ written s.old at (signed32 v) }
{
    write_u32(s, at, flipped(v));
}

// The byte at at is 0.
pub fn zero_at(s: &[u8], at: usize) -> bool
    requires { at < length s.now }
    ensures { result ≡ zero_at s.now at }
{
    s[at] == 0
}

// The three bytes from at are 0.
pub fn zeros3_at(s: &[u8], at: usize) -> bool
    requires { at + 3 ≤ length s.now }
    ensures { result ≡ zeros3_at s.now at }
{
    (s[at] == 0) & ((s[at + 1] == 0) & (s[at + 2] == 0))
}

// The first four bytes are those of magic. Each is compared by itself, and not a part of s by `==`: an edit of the last
// one must be refused.
pub fn starts_with(s: &[u8], magic: [u8; 4]) -> bool
    requires { 4 ≤ length s.now }
    ensures { result ≡ starts_with s.now magic }
{
    (s[0] == magic[0]) & ((s[1] == magic[1]) & ((s[2] == magic[2]) & (s[3] == magic[3])))
}

// All bytes of src, from the front of out. No copy_from_slice: its copy calls memmove, and the library needs no C
// function but memcpy and memset.
pub fn copy_bytes(out: &mut [u8], src: &[u8])
    requires { length src.now ≤ length out.old }
    ensures { out.new ≡ written out.old 0 src.now }
{
    for i in 0..src.len() {
        out[i] = src[i];
    }
}

// n bytes of src from a place, to a place of out.
pub fn copy_part(out: &mut [u8], to: usize, src: &[u8], from: usize, n: usize)
    requires { (to + n ≤ length out.old) × (from + n ≤ length src.now) }
    ensures { out.new ≡ written out.old to (part from n src.now) }
{
    copy_bytes(&mut out[to..], &src[from..from + n]);
}

// The greater of two numbers.
pub fn greater(v: u32, other: u32) -> u32
    ensures { result ≡ max v other }
{
    v.max(other)
}

// ---- fields in their ranges

// An argument in a range.
fn in_arguments(range: ArgumentRange, argument: u32) -> bool
    ensures { result ≡ in_arguments range argument }
{
    (range.least..=range.greatest).contains(&argument)
}

// The argument lies in its op's range; an op past the last has none. With a literal index the table stays in memory;
// with another it is copied to the stack first.
pub fn argument_ok(op: u8, argument: u32) -> bool
    ensures { result ≡ argument_ok op argument }
{
    match op {
        READ_OP => in_arguments(ARGUMENT_RANGES[0], argument),
        SET_OP => in_arguments(ARGUMENT_RANGES[1], argument),
        STEP_OP => in_arguments(ARGUMENT_RANGES[2], argument),
        REPORT_OP => in_arguments(ARGUMENT_RANGES[3], argument),
        FAULT_OP => in_arguments(ARGUMENT_RANGES[4], argument),
        PART_OP => in_arguments(ARGUMENT_RANGES[5], argument),
        6..=255 => false,
    }
}

// Op with its argument, and point.
pub fn command_ok(op: u8, point: u8, v: u32) -> bool
    ensures { result ≡ command_ok op point v }
{
    let argument = argument_ok(op, v);
    argument & (point <= LAST_POINT)
}

// Client and call are from 1.
pub fn id_ok(client: u32, call: u32) -> bool
    ensures { result ≡ id_ok client call }
{
    (1 <= client) & (1 <= call)
}

// 1 <= done <= call, and call - done <= 15.
pub fn done_ok(done: u32, call: u32) -> bool
    ensures { result ≡ done_ok done call }
{
    (1 <= done) & ((done <= call) & (call as u64 <= done as u64 + LAST_IN_WINDOW))
}

pub fn outcome_ok(outcome: u8, quality: u8) -> bool
    ensures { result ≡ outcome_ok outcome quality }
{
    (outcome <= LAST_OUTCOME) & (quality <= LAST_QUALITY)
}

// A value in a point's range.
pub fn in_range(e: PlanEntry, v: u32) -> bool
    ensures { result ≡ in_range e v }
{
    (e.low..=e.high).contains(&v)
}
