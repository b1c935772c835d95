// One log record applied to a state's buffer: what replay does with it, for the operations and for recovery alike.
#![tactic(auto)]

pub mod took;

ghost use Rattle.std.specs.Prelude.{◌≡◌, ◌≤◌};
ghost use Rattle.model.specs.Limits.{last_point};
ghost use Rattle.model.specs.States.{load};
ghost use Rattle.model.specs.Apply.{completion, executed_point, apply_executed, apply_gone, gave_point, apply_gave, released_point, apply_released};
ghost use Rattle.model.specs.Operations.{stored};
ghost use Rattle.state_rows.specs.Canonical.{Canonical};
ghost use Rattle.server_apply.specs.Room.{Room};

use model::{Completion, Executed, Give, Notice, Point, Release, constants};
use state_records::Rule;
use state_rows::state;

// ---- executed

fn completion(executed: Executed, end: u64) -> Completion
    ensures { result ≡ completion executed end }
{
    let command = executed.command;
    let result = executed.result;
    Completion {
        command,
        result,
        end,
    }
}

fn executed_point(executed: Executed, x: Point) -> Point
    ensures { result ≡ executed_point executed x }
{
    Point {
        quality: executed.result.quality,
        value: executed.result.value,
        ..x
    }
}

// The point's value and quality, a completion record, the client's floor; its records under the floor go.
pub fn apply_executed(s: &mut [u8], executed: Executed, end: u64)
    requires { Canonical s.old × (executed.command.point ≤ last_point) × Room executed (load s.old) }
    ensures { s.new ≡ stored s.old (apply_executed executed end (load s.old)) }
{
    let x = state::point_at(s, executed.command.point);
    let old = state_clients::floor_in(s, executed.command.client);
    state_clients::raise(s, executed.command.client, executed.done);
    let floor = format_numbers::greater(old, executed.done);
    state_records::keep_over(s, executed.command.client, old, floor);
    state_records::append(s, completion(executed, end));
    state::set_point(s, executed.command.point, executed_point(executed, x));
    state::set_size(s, end);
}

// ---- gone

// The client and its records go, heard time rises to the notice's time.
pub fn apply_gone(s: &mut [u8], notice: Notice, end: u64)
    requires { Canonical s.old }
    ensures { s.new ≡ stored s.old (apply_gone notice end (load s.old)) }
{
    let heard = format_numbers::greater(state::heard_of(s), notice.time);
    state_clients::remove(s, notice.client);
    state_records::keep_records(s, Rule::OfOther(notice.client));
    state::set_heard(s, heard);
    state::set_size(s, end);
}

// ---- give

fn gave_point(g: Give, end: u64, x: Point) -> Point
    ensures { result ≡ gave_point g end x }
{
    Point {
        status: constants::GIVEN,
        destination: g.destination,
        move_number: g.move_number,
        give_end: end,
        ..x
    }
}

// The move number rises, the point is closed.
pub fn apply_gave(s: &mut [u8], g: Give, end: u64)
    requires { Canonical s.old × (g.point ≤ last_point) }
    ensures { s.new ≡ stored s.old (apply_gave g end (load s.old)) }
{
    let x = state::point_at(s, g.point);
    state::set_point(s, g.point, gave_point(g, end, x));
    state::set_size(s, end);
}

// ---- release

fn released_point(x: Point) -> Point
    ensures { result ≡ released_point x }
{
    Point {
        status: constants::RELEASED,
        ..x
    }
}

// The point's records go, its move number stays.
pub fn apply_released(s: &mut [u8], release: Release, end: u64)
    requires { Canonical s.old × (release.point ≤ last_point) }
    ensures { s.new ≡ stored s.old (apply_released release end (load s.old)) }
{
    let x = state::point_at(s, release.point);
    state_records::keep_records(s, Rule::OnOther(release.point));
    state::set_point(s, release.point, released_point(x));
    state::set_size(s, end);
}
