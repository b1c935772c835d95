// A server's state in its buffer: each part read, and each part stored. A buffer that a change is made in is canonical:
// it is the bytes of its state. What a change leaves is the bytes of the changed state, so that a chain of changes is
// its last state.
ghost use Rattle.std.specs.Prelude.{◌≡◌, ◌≤◌, length};
ghost use Rattle.model.specs.Limits.{last_point};
ghost use Rattle.model.specs.Plan.{entry_at};
ghost use Rattle.model.specs.States.{load, state_end, point_at};
ghost use Rattle.model.specs.Apply.{with_mark};
ghost use Rattle.model.specs.Operations.{stored};
ghost use Rattle.model_laws.specs.Layout.{with_heard, with_size, with_point};
ghost use Rattle.state_rows.specs.Canonical.{Canonical};

use model::constants::{PLAN_START, POINT_ROW, POINTS_START};
use model::{PlanEntry, Point, constants};

// ---- the head

// The server's number.
pub fn server_of(s: &[u8]) -> u8
    requires { state_end ≤ length s.now }
    ensures { result ≡ (load s.now).server }
{
    s[constants::STATE_SERVER]
}

pub fn heard_of(s: &[u8]) -> u32
    requires { state_end ≤ length s.now }
    ensures { result ≡ (load s.now).heard }
{
    format_numbers::read_u32(s, constants::STATE_HEARD)
}

// The log's recorded length.
pub fn size_of(s: &[u8]) -> u64
    requires { state_end ≤ length s.now }
    ensures { result ≡ (load s.now).size }
{
    format_numbers::read_u64(s, constants::STATE_LENGTH)
}

pub fn mark_of(s: &[u8]) -> u64
    requires { state_end ≤ length s.now }
    ensures { result ≡ (load s.now).mark }
{
    format_numbers::read_u64(s, constants::STATE_MARK)
}

pub fn clients_of(s: &[u8]) -> usize
    requires { state_end ≤ length s.now }
    ensures { result ≡ length (load s.now).floors }
{
    crate::clients_in(s) as usize
}

pub fn records_of(s: &[u8]) -> usize
    requires { state_end ≤ length s.now }
    ensures { result ≡ length (load s.now).records }
{
    crate::records_in(s) as usize
}

pub fn set_heard(s: &mut [u8], v: u32)
    requires { Canonical s.old }
    ensures { s.new ≡ stored s.old (with_heard v (load s.old)) }
{
    format_numbers::write_u32(s, constants::STATE_HEARD, v);
}

pub fn set_size(s: &mut [u8], size: u64)
    requires { Canonical s.old }
    ensures { s.new ≡ stored s.old (with_size size (load s.old)) }
{
    crate::put_size(s, size);
}

pub fn set_mark(s: &mut [u8], mark: u64)
    requires { Canonical s.old }
    ensures { s.new ≡ stored s.old (with_mark mark (load s.old)) }
{
    crate::put_mark(s, mark);
}

// ---- points and the plan

pub fn point_at(s: &[u8], p: u8) -> Point
    requires { (state_end ≤ length s.now) × (p ≤ last_point) }
    ensures { result ≡ point_at (load s.now) p }
{
    crate::point_from(s, POINTS_START + POINT_ROW * (p as usize))
}

// The plan's entry of a point.
pub fn entry_at(s: &[u8], p: u8) -> PlanEntry
    requires { (state_end ≤ length s.now) × (p ≤ last_point) }
    ensures { result ≡ entry_at (load s.now).plan p }
{
    format_commands::plan_entry(s, PLAN_START + constants::PLAN_ROW * (p as usize))
}

pub fn set_point(s: &mut [u8], p: u8, x: Point)
    requires { Canonical s.old × (p ≤ last_point) }
    ensures { s.new ≡ stored s.old (with_point p x (load s.old)) }
{
    crate::put_point(s, POINTS_START + POINT_ROW * (p as usize), x);
}
