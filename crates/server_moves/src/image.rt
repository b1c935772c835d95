// Image: what a server knows of a point that it has given. It answers and leaves its lent slices as its definition
// says, for all arguments.
ghost use Rattle.std.specs.Prelude.{◌≡◌, ◌≤◌, length};
ghost use Rattle.model.specs.Limits.{last_point, greatest_image};
ghost use Rattle.model.specs.States.{load};
ghost use Rattle.model.specs.Versions.{today};
ghost use Rattle.model.specs.Operations.{after, image_of};
ghost use Rattle.refusals.specs.Numbers.{answered};
ghost use Rattle.model_laws.specs.Fits.{Sound};
ghost use Rattle.server_memory.specs.Memory.{SettledBeside};
ghost use Rattle.server_moves.specs.Numbers.{image_decided};

use model::constants;
use refusals::Refusal;
use state_rows::state;

// Once these are passed: 3 not given, or released; 7 give not synced; else the image of the point.
fn image_made(s: &[u8], point: u8, out: &mut [u8]) -> Result<u32, Refusal>
    requires { (Sound s.now) × (point ≤ last_point) × (greatest_image ≤ length out.old) }
    ensures { SettledBeside (image_decided (load s.now) point)
        s.now out.old (answered result) s.now out.new }
{
    let x = state::point_at(s, point);
    let mark = state::mark_of(s);
    server_decide::image_refusal(x, mark)?;
    let size = state_image::write_image(out, s, point);
    Ok(size as u32)
}

// 2; 19; 1; 3 not given, or released; 7 give not synced; else the image of the point.
pub fn image(s: &[u8], log: &[u8], point: u32, out: &mut [u8]) -> Result<u32, Refusal>
    ensures { after (answered result) s.now log.now out.new
        ≡ image_of today s.now log.now point out.old }
{
    crate::point::place_number(s, log, out.len(), constants::GREATEST_IMAGE, point)?;
    image_made(s, point as u8, out)
}
