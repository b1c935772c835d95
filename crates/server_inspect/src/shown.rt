// The bytes that inspect finds: the part of the checkpoint or of the tail at their place.
ghost use Rattle.std.specs.Prelude.{◌≡◌};
ghost use Rattle.model.specs.Checkpoints.{inspect_of, shown_of};
ghost use Rattle.server_inspect.specs.Inspected.{Inside, part_of, points_into};

use model::{Place, constants};

// The part of one of two slices at a place.
fn part_at<'a>(checkpoint: &'a [u8], tail: &'a [u8], place: Place) -> &'a [u8]
    requires { Inside checkpoint.now tail.now place }
    ensures result_value { result.now ≡ part_of place checkpoint.now tail.now }
    ensures points_into { points_into place checkpoint.entry.ref_ptr tail.entry.ref_ptr result.ref_ptr }
{
    let start = place.start;
    let end = place.end;
    if place.source == constants::IN_CHECKPOINT {
        return &checkpoint[start..end];
    }
    &tail[start..end]
}

// That part itself, at its place in the checkpoint or in the tail; no bytes with a refusal.
pub fn shown<'a>(
    state: &[u8],
    checkpoint: &'a [u8],
    tail: &'a [u8],
    client: u32,
    call: u32,
) -> &'a [u8]
    ensures result_value { result.now ≡ shown_of state.now checkpoint.now tail.now client call }
    ensures points_into { points_into
        (inspect_of state.now checkpoint.now tail.now client call)
        checkpoint.entry.ref_ptr tail.entry.ref_ptr result.ref_ptr }
{
    let found = crate::place::place(state, checkpoint, tail, client, call);
    part_at(checkpoint, tail, found)
}
