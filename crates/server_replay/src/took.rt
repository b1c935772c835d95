// A take record on the state in a buffer: whether it follows the state, and its replay there if it does.
ghost use Rattle.std.specs.Prelude.{◌≡◌, true, ◌≤◌};
ghost use Rattle.model.specs.Limits.{last_point};
ghost use Rattle.model.specs.Images.{image_at, image_head_of, image_ok};
ghost use Rattle.model.specs.Logs.{took};
ghost use Rattle.model.specs.States.{load};
ghost use Rattle.model.specs.Decisions.{follows};
ghost use Rattle.server_replay.specs.Standing.{Standing, Ready, ReplayedBy};
ghost use Rattle.server_replay.specs.Imaged.{Imaged};

use crate::Replayed;
use model::ImageHead;
use state_records::ids;
use state_rows::state;

// An image with its head.
#[derive(Clone, Copy)]
struct Take<'a> {
    image: &'a [u8],
    h: ImageHead,
    ghost imaged: { Imaged image.now h },
}

impl<'a> Replayed for Take<'a> {
    ghost log_record = { λ t. took (image_at t.h t.image.now) };

    // The image is asked no space: its record stands in the log.
    fn follows(self, s: &[u8]) -> bool
        requires { Standing s.now × (self.h.point ≤ last_point) }
        ensures { result ≡ follows (load s.now) (took (image_at self.entry.h self.entry.image.now)) }
    {
        let Take { image, h } = self;
        let x = state::point_at(s, h.point);
        let e = state::entry_at(s, h.point);
        let server = state::server_of(s);
        let ranged = format_image_reader::values_in_range(image, h, e);
        let unheld = ids::ids_free(s, image, h);
        let merged = state_clients::merged_count(s, image, h.floors as usize);
        let taken = server_decide::take_refusal(
            x,
            server,
            h.destination,
            h.move_number,
            ranged,
            unheld,
            merged,
            0,
            0,
        );
        taken.is_ok()
    }

    fn apply(self, s: &mut [u8], end: u64) {
        server_apply::took::apply_took(s, self.image, self.h, end);
    }
}

pub fn replay_took(s: &mut [u8], image: &[u8], end: u64) -> bool
    requires { Ready s.old (took (image_at (image_head_of image.now) image.now)) end
        × (image_ok image.now ≡ true) }
    ensures { ReplayedBy (took (image_at (image_head_of image.now) image.now)) end
        s.old s.new result }
{
    let h = format_image_rows::head_from(image);
    crate::replay(s, Take { image, h }, end)
}
