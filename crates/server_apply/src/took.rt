// A take applied to a state's buffer: the image's floors merged, the state's own old records of the point gone, the
// image's records added, those under a floor gone, the point and its move number set, heard time raised.
ghost use Rattle.std.specs.Prelude.{◌≡◌, [], ◌≤◌};
ghost use Rattle.model.specs.Limits.{last_point};
ghost use Rattle.model.specs.Images.{image_at};
ghost use Rattle.model.specs.States.{load};
ghost use Rattle.model.specs.Apply.{took_point, apply_took};
ghost use Rattle.model.specs.Operations.{stored};
ghost use Rattle.model_laws.specs.Layout.{with_records};
ghost use Rattle.state_rows.specs.Canonical.{Canonical};
ghost use Rattle.state_records.specs.declared.Rule.TheVariants.{Beside};
ghost use Rattle.state_records.specs.Rules.{kept_by};
ghost use Rattle.server_apply.specs.Taking.{RoomFor, TakesInto, tabled, pointed};

use model::{ImageHead, Point, constants};
use state_records::Rule;
use state_rows::state;

// The point as an image of the head h brings it.
fn took_point(h: ImageHead, end: u64) -> Point
    ensures { result ≡ took_point (image_at h []) end }
{
    Point {
        status: constants::HELD,
        quality: h.quality,
        destination: 0,
        value: h.value,
        move_number: h.move_number,
        taken_move: h.move_number,
        give_end: 0,
        take_end: end,
    }
}

// What leaves the records, the point's and those under a floor, in one pass. A second pass would move rows again, and
// leave others than the first found behind the last record.
fn drop_records(s: &mut [u8], point: u8)
    requires { Canonical s.old }
    ensures { s.new
        ≡ stored s.old
        (with_records (kept_by (Beside point) (load s.old)) (load s.old)) }
{
    state_records::keep_records(s, Rule::Beside(point));
}

// The two tables: floors merged, then the records that go, then those that come.
fn take_tables(s: &mut [u8], image: &[u8], h: ImageHead, end: u64)
    requires { RoomFor s.old image.now h end }
    ensures { s.new
        ≡ stored s.old (tabled image.now h end (load s.old)) }
{
    state_clients::merge(s, image, h.floors as usize);
    drop_records(s, h.point);
    state_records::append_image(s, image, h, end);
}

// The point, heard time and the log's length.
fn take_point(s: &mut [u8], h: ImageHead, end: u64)
    requires { Canonical s.old × (h.point ≤ last_point) }
    ensures { s.new ≡ stored s.old (pointed h end (load s.old)) }
{
    let heard = state::heard_of(s);
    let x = took_point(h, end);
    state::set_point(s, h.point, x);
    state::set_heard(s, format_numbers::greater(heard, h.heard));
    state::set_size(s, end);
}

// A take of the image that has the head h.
pub fn apply_took(s: &mut [u8], image: &[u8], h: ImageHead, end: u64)
    requires { TakesInto s.old image.now h end }
    ensures { s.new
        ≡ stored s.old (apply_took (image_at h image.now) end (load s.old)) }
{
    take_tables(s, image, h, end);
    take_point(s, h, end);
}
