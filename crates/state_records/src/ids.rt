// Ids against the completion records of a state: one that none of them has; those of an image, none of which is held
// for another point.
ghost use Rattle.std.specs.Prelude.{◌≡◌, ◌≤◌, length};
ghost use Rattle.model.specs.Tables.{every};
ghost use Rattle.model.specs.Images.{image_at, length_by};
ghost use Rattle.model.specs.States.{load};
ghost use Rattle.model.specs.Decisions.{free_for};
ghost use Rattle.model_invariants.specs.Sound.{Distinct};
ghost use Rattle.state_rows.specs.Canonical.{Canonical};
ghost use Rattle.model.specs.Decisions.{find, is_none};

use model::{ImageEntry, ImageHead};

// No completion record has the id.
pub fn is_missing(s: &[u8], client: u32, call: u32) -> bool
    requires { Canonical s.now }
    ensures { result ≡ is_none (find client call (load s.now).records) }
{
    crate::find(s, client, call).is_none()
}

// An id is held for no other point.
fn is_free(s: &[u8], point: u8, entry: ImageEntry) -> bool
    requires { Canonical s.now × Distinct (load s.now).records }
    ensures { result ≡ free_for point (load s.now).records entry }
{
    crate::find(s, entry.client, entry.call).is_none_or(|r| r.command.point == point)
}

// Each id of an image with the head h.
pub fn ids_free(s: &[u8], image: &[u8], h: ImageHead) -> bool
    requires { Canonical s.now × Distinct (load s.now).records × (length_by h ≤ length image.now) }
    ensures { result ≡ every (free_for h.point (load s.now).records)
        (image_at h image.now).entries }
{
    let entries = h.entries as usize;
    let width = format_image_rows::entry_width(h);
    let at = format_image_rows::entries_start(h.floors);
    for i in 0..entries {
        let k = format_image_rows::entry_at(at, width, i);
        let entry = format_image_rows::entry_from(image, k, h.timed);
        if !is_free(s, h.point, entry) {
            return false;
        }
    }
    true
}
