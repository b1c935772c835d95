// The tests of each call of a server, on values: the first that refuses it gives the refusal.
// They stand in the order of docs/REFERENCE.md; those of lent memory (2, 19) come before. Recovery asks the same
// functions.
#![tactic(auto)]

ghost use Rattle.std.specs.Prelude.{◌≡◌, ◌&&◌, ◌||◌, not, leb};
ghost use Rattle.model.specs.Limits.{client_count, executed_size};
ghost use Rattle.model.specs.Images.{not_known};
ghost use Rattle.model.specs.States.{is_held, is_given, is_synced};
ghost use Rattle.model.specs.Decisions.{same_command, request_refusal, held_refusal, new_refusal, fetch_refusal, sync_refusal, notice_refusal, places_bad, give_refusal, image_refusal, receipt_refusal, release_refusal, take_refusal};
ghost use Rattle.model.specs.Operations.{found_refusal, recover_refusal};
ghost use Rattle.model.specs.Checkpoints.{recover_tail_refusal};
ghost use Rattle.refusals.specs.Numbers.{refusal_of};
ghost use Rattle.server_decide.specs.Lists.{checkpoint_tests, inspect_tests};

use model::constants::{
    CLIENT_COUNT, EXECUTED_SIZE, GIVE_SIZE, GIVEN, GONE_SIZE, HEAD_SIZE, HELD, LAST_32, LAST_POINT,
    LAST_SERVER, RELEASE_SIZE, STATE_SIZE,
};
use model::{Completion, Point, Request};
use refusals::Refusal;

// ---- single tests

fn is_held(x: Point) -> bool
    ensures { result ≡ is_held x }
{
    x.status == HELD
}

// Given, and not yet released.
fn is_given(x: Point) -> bool
    ensures { result ≡ is_given x }
{
    x.status == GIVEN
}

// A record that ends at end is synced.
fn is_synced(mark: u64, end: u64) -> bool
    ensures { result ≡ is_synced mark end }
{
    end <= mark
}

// A client with this floor is not known.
fn not_known(floor: u32) -> bool
    ensures { result ≡ not_known floor }
{
    floor == 0
}

// A client that is not known finds no place.
fn no_place(floor: u32, clients: usize) -> bool
    ensures { result ≡ (not_known floor && leb client_count clients) }
{
    let new = not_known(floor);
    new & (CLIENT_COUNT <= clients)
}

fn same_command(r: Completion, q: Request) -> bool
    ensures { result ≡ same_command r q }
{
    (r.command.op == q.command.op)
        & ((r.command.point == q.command.point) & (r.command.argument == q.command.argument))
}

// A point or a server number out of range.
pub fn places_bad(point: u32, destination: u32) -> bool
    ensures { result ≡ places_bad point destination }
{
    ((LAST_POINT as u32) < point) | ((LAST_SERVER as u32) < destination)
}

// ---- found and recover, by the lengths of the lent slices

// 2 state, or log under 8 bytes; 1 bad plan or server number.
pub fn found_refusal(states: usize, logs: usize, good: bool, server: u32) -> Result<(), Refusal>
    ensures { refusal_of result ≡ found_refusal states logs good server }
{
    if (states < STATE_SIZE) | (logs < HEAD_SIZE) {
        return Err(Refusal::TooShort);
    }
    if !good | ((LAST_SERVER as u32) < server) {
        return Err(Refusal::Malformed);
    }
    Ok(())
}

// 2 state; 1 bad plan.
pub fn recover_refusal(states: usize, good: bool) -> Result<(), Refusal>
    ensures { refusal_of result ≡ recover_refusal states good }
{
    if states < STATE_SIZE {
        return Err(Refusal::TooShort);
    }
    if !good {
        return Err(Refusal::Malformed);
    }
    Ok(())
}

// From checkpoint and tail: 2 state.
pub fn recover_checkpoint_refusal(states: usize) -> Result<(), Refusal>
    ensures { refusal_of result ≡ recover_tail_refusal states }
{
    if states < STATE_SIZE {
        return Err(Refusal::TooShort);
    }
    Ok(())
}

// ---- checkpoint and inspect

// 7 records not synced.
pub fn checkpoint_refusal(mark: u64, size: u64) -> Result<(), Refusal>
    ensures { refusal_of result ≡ checkpoint_tests mark size }
{
    if mark < size {
        return Err(Refusal::NotSynced);
    }
    Ok(())
}

// 14 a bad checkpoint, or a tail that the first walk refuses; 17 the state lacks the id.
pub fn inspect_refusal(bad: bool, off: bool, lacks: bool) -> Result<(), Refusal>
    ensures { refusal_of result ≡ inspect_tests bad off lacks }
{
    if bad | off {
        return Err(Refusal::BadLog);
    }
    if lacks {
        return Err(Refusal::Unknown);
    }
    Ok(())
}

// ---- requests

// 3 point not held; 4 the lease is over; 5 call under the floor.
pub fn request_refusal(x: Point, over: bool, floor: u32, call: u32) -> Result<(), Refusal>
    ensures { refusal_of result ≡ request_refusal x over floor call }
{
    if !is_held(x) {
        return Err(Refusal::NotHeld);
    }
    if over {
        return Err(Refusal::LeaseOver);
    }
    if call < floor {
        return Err(Refusal::UnderFloor);
    }
    Ok(())
}

// An id that is held: 6 with another op, point or argument; 7 not synced.
pub fn held_refusal(mark: u64, q: Request, completion: Completion) -> Result<(), Refusal>
    ensures { refusal_of result ≡ held_refusal mark q completion }
{
    if !same_command(completion, q) {
        return Err(Refusal::OtherCommand);
    }
    if !is_synced(mark, completion.end) {
        return Err(Refusal::NotSynced);
    }
    Ok(())
}

// One that is not held: 8 client not known and 32 known; 9 log lacks 32 bytes.
pub fn new_refusal(floor: u32, clients: usize, free: usize) -> Result<(), Refusal>
    ensures { refusal_of result ≡ new_refusal floor clients free executed_size }
{
    if no_place(floor, clients) {
        return Err(Refusal::ClientsFull);
    }
    if free < EXECUTED_SIZE {
        return Err(Refusal::LogFull);
    }
    Ok(())
}

// ---- fetch, sync, notice

// 7 not synced.
pub fn fetch_refusal(mark: u64, completion: Completion) -> Result<(), Refusal>
    ensures { refusal_of result ≡ fetch_refusal mark completion }
{
    if !is_synced(mark, completion.end) {
        return Err(Refusal::NotSynced);
    }
    Ok(())
}

// 10 below the present mark or above the log's length.
pub fn sync_refusal(present: u64, size: u64, mark: u64) -> Result<(), Refusal>
    ensures { refusal_of result ≡ sync_refusal present size mark }
{
    if (mark < present) | (size < mark) {
        return Err(Refusal::BadMark);
    }
    Ok(())
}

// 17 client not known; 9.
pub fn notice_refusal(floor: u32, free: usize) -> Result<(), Refusal>
    ensures { refusal_of result ≡ notice_refusal floor free }
{
    if not_known(floor) {
        return Err(Refusal::Unknown);
    }
    if free < GONE_SIZE {
        return Err(Refusal::LogFull);
    }
    Ok(())
}

// ---- moves

// 3; 11 destination is this server; 16 move number at its greatest; 9.
pub fn give_refusal(x: Point, server: u8, free: usize, destination: u32) -> Result<(), Refusal>
    ensures { refusal_of result ≡ give_refusal x server free destination }
{
    if !is_held(x) {
        return Err(Refusal::NotHeld);
    }
    if destination == server as u32 {
        return Err(Refusal::WrongDestination);
    }
    if LAST_32 <= x.move_number {
        return Err(Refusal::NumbersOut);
    }
    if free < GIVE_SIZE {
        return Err(Refusal::LogFull);
    }
    Ok(())
}

// 3 not given, or released; 7 give not synced.
pub fn image_refusal(x: Point, mark: u64) -> Result<(), Refusal>
    ensures { refusal_of result ≡ image_refusal x mark }
{
    if !is_given(x) {
        return Err(Refusal::NotHeld);
    }
    if !is_synced(mark, x.give_end) {
        return Err(Refusal::NotSynced);
    }
    Ok(())
}

// 3 never taken; 7 latest take not synced.
pub fn receipt_refusal(x: Point, mark: u64) -> Result<(), Refusal>
    ensures { refusal_of result ≡ receipt_refusal x mark }
{
    if x.taken_move == 0 {
        return Err(Refusal::NotHeld);
    }
    if !is_synced(mark, x.take_end) {
        return Err(Refusal::NotSynced);
    }
    Ok(())
}

// 3 the point is not given, or no longer; 12 a receipt of an earlier move; 9.
pub fn release_refusal(x: Point, free: usize, moved: u32) -> Result<(), Refusal>
    ensures { refusal_of result ≡ release_refusal x free moved }
{
    if !is_given(x) {
        return Err(Refusal::NotHeld);
    }
    if moved < x.move_number {
        return Err(Refusal::OldMove);
    }
    if free < RELEASE_SIZE {
        return Err(Refusal::LogFull);
    }
    Ok(())
}

// 13 point held here, or an id held for another point.
fn is_kept(x: Point, ids: bool) -> bool
    ensures { result ≡ (is_held x || not ids) }
{
    let held = is_held(x);
    held | !ids
}

// 1 a value out of range; 11 for another server; 12 no later move; 13 held here, or an id that is here for another
// point; 8 too many clients; 9 no space for the record.
pub fn take_refusal(
    x: Point,
    server: u8,
    destination: u8,
    number: u32,
    ranged: bool,
    ids: bool,
    merged: usize,
    free: usize,
    need: usize,
) -> Result<(), Refusal>
    ensures { refusal_of result ≡ take_refusal x server destination number ranged ids merged free need }
{
    if !ranged {
        return Err(Refusal::Malformed);
    }
    if destination != server {
        return Err(Refusal::WrongDestination);
    }
    if number <= x.move_number {
        return Err(Refusal::OldMove);
    }
    if is_kept(x, ids) {
        return Err(Refusal::AlreadyHeld);
    }
    if CLIENT_COUNT < merged {
        return Err(Refusal::ClientsFull);
    }
    if free < need {
        return Err(Refusal::LogFull);
    }
    Ok(())
}
