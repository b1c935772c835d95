// The lease manager (paper: lease office): open, renew, query. Values in and values out; every value of the struct is
// taken. A call is what it changes, so that a lent manager is read in place, and only what changes is stored.
#![tactic(auto)]

ghost use Rattle.std.specs.Prelude.{◌≡◌, Bool, false, ◌||◌, ◌<◌, List, eqb, leb, length};
ghost use Rattle.model.specs.declared.Lease.{Lease};
ghost use Rattle.model.specs.Leases.{time_at, ended_at, running_at, span_ok, open_of, renew_of, query_of};
ghost use Rattle.model.specs.Limits.{lease_count};
ghost use Rattle.leases.specs.Changes.{place_in, lease_at, kept_at, RunningAt, stored, answered, Changes, no_change, new_holder, holder_of, granted_to, or_refused, told_end, query_among};

use model::constants::LEASE_COUNT;
use model::{Grant, Lease, LeaseAnswer, LeaseManager, Notice, Refusal, Told, constants};

// What a call changes: time, the latest client number, and what stands at one place. ended: the ended leases are
// cleared before.
#[derive(Clone, Copy)]
pub struct LeaseChange {
    pub ended: bool,
    pub time: u32,
    pub issued: u32,
    pub place: usize,
    pub lease: Lease,
    pub answer: Result<Told, Refusal>,
}

// Who is to be granted a lease, and at which place: the end that it has there, and the latest number then.
#[derive(Clone, Copy)]
pub struct Holder {
    pub place: usize,
    pub issued: u64,
    pub client: u64,
    pub end: u32,
}

// Where a client's running lease stands, and its end.
#[derive(Clone, Copy)]
pub struct Found {
    pub place: usize,
    pub end: u32,
}

// ---- one lease

// A lease with end ≤ time has ended; a free place has none.
fn has_ended(now: u32, lease: Lease) -> bool
    ensures { result ≡ (leb lease.lease now || eqb lease.client 0) }
{
    (lease.lease <= now) | (lease.client == 0)
}

fn ended_at(now: u32, lease: Lease) -> Lease
    ensures { result ≡ ended_at now lease }
{
    if has_ended(now, lease) {
        return Lease {
            client: 0,
            lease: 0,
        };
    }
    lease
}

// Whether a call at this time must clear the place: a lease that has ended, or what no lease is.
fn must_clear(now: u32, lease: Lease) -> bool
    ensures { result ≡ false → ended_at now lease ≡ lease }
{
    has_ended(now, lease) & !((lease.client == 0) & (lease.lease == 0))
}

// ---- the 32 places

// The ended leases are cleared. Not inlined: the compiler makes it wide, and three calls of C would have it twice each.
#[inline(never)]
fn clear_ended(now: u32, ls: &mut [Lease; LEASE_COUNT])
    ensures { ls.new ≡ running_at now ls.old }
{
    for lease in ls.iter_mut() {
        *lease = ended_at(now, *lease);
    }
}

// Whether any place must be cleared. Without an exit from the loop, so that it is compiled to a few wide steps.
fn some_ended(now: u32, ls: [Lease; LEASE_COUNT]) -> bool
    ensures { (result ≡ false → running_at now ls ≡ ls) × (length ls ≡ lease_count) }
{
    ls.iter()
        .fold(false, |found, lease| found | must_clear(now, *lease))
}

// The place of the client's lease; of client 0, the first free place.
fn place_in(client: u32, ls: [Lease; LEASE_COUNT]) -> Option<usize>
    ensures { result ≡ place_in client ls }
{
    ls.iter().position(|lease| lease.client == client)
}

// The client's running lease: what has ended has the end 0.
fn lease_at(client: u32, ls: [Lease; LEASE_COUNT]) -> Option<Found>
    ensures { result ≡ lease_at client ls }
{
    let place = place_in(client, ls)?;
    let end = ls[place].lease;
    if end == 0 {
        return None;
    }
    Some(Found { place, end })
}

// ---- what the operations are made of

fn time_at(m: LeaseManager, time: u32) -> u32
    ensures { result ≡ time_at m time }
{
    format_numbers::greater(m.time, time)
}

fn span_ok(span: u32) -> bool
    ensures { result ≡ span_ok span }
{
    (1 <= span) & (span <= constants::LONGEST_SPAN)
}

// The leases that are left before one is stored.
fn kept_at(m: LeaseManager, ended: bool, now: u32) -> [Lease; LEASE_COUNT]
    ensures { result ≡ kept_at m ended now }
{
    let mut leases = m.leases;
    if ended {
        clear_ended(now, &mut leases);
    }
    leases
}

// What is made of the leases that run. ended: whether they are not those of the manager, since some have ended.
fn among_running<A, F: FnOnce([Lease; LEASE_COUNT], bool) -> A>(
    m: LeaseManager,
    now: u32,
    make: F,
) -> A
    requires { F.IsAlwaysCallable make }
    ensures { (ls : List Lease) × (ended : Bool) × RunningAt m now ls ended × F.post make ls ended result }
{
    let mut held = m.leases;
    let ended = some_ended(now, held);
    if ended {
        clear_ended(now, &mut held);
    }
    make(held, ended)
}

// The manager with what changes.
pub fn stored(m: LeaseManager, change: LeaseChange) -> LeaseManager
    requires { change.place < lease_count }
    ensures { result ≡ stored m change.ended change.time change.issued change.place change.lease }
{
    let mut leases = kept_at(m, change.ended, change.time);
    leases[change.place] = change.lease;
    LeaseManager {
        time: change.time,
        issued: change.issued,
        leases,
    }
}

// A refused call changes nothing.
fn no_change(m: LeaseManager, refusal: Refusal) -> LeaseChange
    ensures { result ≡ no_change m refusal }
{
    LeaseChange {
        ended: false,
        time: m.time,
        issued: m.issued,
        place: 0,
        lease: m.leases[0],
        answer: Err(refusal),
    }
}

// A new client, at the first free place: 18 where all are taken.
fn new_holder(m: LeaseManager, ls: [Lease; LEASE_COUNT]) -> Result<Holder, Refusal>
    ensures { result ≡ new_holder m ls }
{
    let place = place_in(0, ls).ok_or(Refusal::LeasesFull)?;
    let next = m.issued as u64 + 1;
    Ok(Holder {
        place,
        issued: next,
        client: next,
        end: 0,
    })
}

// The client, at the place of its lease: 17 where none runs.
fn holder_of(m: LeaseManager, client: u32, ls: [Lease; LEASE_COUNT]) -> Result<Holder, Refusal>
    ensures { result ≡ holder_of m client ls }
{
    let found = lease_at(client, ls).ok_or(Refusal::Unknown)?;
    Ok(Holder {
        place: found.place,
        issued: m.issued as u64,
        client: client as u64,
        end: found.end,
    })
}

// Open and renew: 1 a span outside 1 to 86,400; the holder's refusal; 16 a number or an end past 32 bits. The later end
// holds.
fn granted_to(
    m: LeaseManager,
    holder: Result<Holder, Refusal>,
    ended: bool,
    time: u32,
    span: u32,
) -> Result<LeaseChange, Refusal>
    ensures { result ≡ granted_to m holder ended time span }
{
    if !span_ok(span) {
        return Err(Refusal::Malformed);
    }
    let holder = holder?;
    let now = time_at(m, time);
    let end = now as u64 + span as u64;
    if (constants::LAST_32_U64 < holder.issued)
        | ((constants::LAST_32_U64 < holder.client) | (constants::LAST_32_U64 < end))
    {
        return Err(Refusal::NumbersOut);
    }
    let client = holder.client as u32;
    let lease = format_numbers::greater(holder.end, end as u32);
    Ok(LeaseChange {
        ended,
        time: now,
        issued: holder.issued as u32,
        place: holder.place,
        lease: Lease { client, lease },
        answer: Ok(Told::ByGrant(Grant { client, lease })),
    })
}

fn or_refused(m: LeaseManager, granted: Result<LeaseChange, Refusal>) -> LeaseChange
    ensures { result ≡ or_refused m granted }
{
    granted.unwrap_or_else(|refusal| no_change(m, refusal))
}

// A grant, or a notice where no lease runs.
fn told_end(client: u32, now: u32, found: Option<Found>) -> Told
    ensures { result ≡ told_end client now found }
{
    match found {
        None => Told::ByNotice(Notice { client, time: now }),
        Some(running) => Told::ByGrant(Grant {
            client,
            lease: running.end,
        }),
    }
}

fn query_among(
    m: LeaseManager,
    ls: [Lease; LEASE_COUNT],
    ended: bool,
    client: u32,
    now: u32,
) -> LeaseChange
    ensures { result ≡ query_among m ls ended client now }
{
    LeaseChange {
        ended,
        time: now,
        issued: m.issued,
        place: 0,
        lease: ls[0],
        answer: Ok(told_end(client, now, lease_at(client, ls))),
    }
}

// ---- the operations: what they change

// Open: 1; 18 no place for a lease; 16.
pub fn open_change(m: LeaseManager, time: u32, span: u32) -> LeaseChange
    ensures { Changes m result (open_of m time span) }
{
    let granted = among_running(
        m,
        time_at(m, time),
        |ls, ended|
            ensures { result ≡ granted_to m (new_holder m ls) ended time span }
        { granted_to(m, new_holder(m, ls), ended, time, span) },
    );
    or_refused(m, granted)
}

// Renew (client, time, span): 1; 17 no running lease; 16.
pub fn renew_change(m: LeaseManager, client: u32, time: u32, span: u32) -> LeaseChange
    ensures { Changes m result (renew_of m client time span) }
{
    let granted = among_running(
        m,
        time_at(m, time),
        |ls, ended|
            ensures { result ≡ granted_to m (holder_of m client ls) ended time span }
        { granted_to(m, holder_of(m, client, ls), ended, time, span) },
    );
    or_refused(m, granted)
}

// Query: 17 a number that was never given out; else a grant or, where no lease runs, a notice with the manager's time.
pub fn query_change(m: LeaseManager, client: u32, time: u32) -> LeaseChange
    ensures { Changes m result (query_of m client time) }
{
    if (client == 0) | (m.issued < client) {
        return no_change(m, Refusal::Unknown); // never issued
    }
    let now = time_at(m, time);
    among_running(
        m,
        now,
        |ls, ended|
            ensures { result ≡ query_among m ls ended client now }
        { query_among(m, ls, ended, client, now) },
    )
}

// ---- the operations, by value

// The answer that a change makes.
fn answered(m: LeaseManager, change: LeaseChange) -> LeaseAnswer
    requires { change.place < lease_count }
    ensures { result ≡ answered m change }
{
    LeaseAnswer {
        manager: stored(m, change),
        answer: change.answer,
    }
}

pub fn open_lease(m: LeaseManager, time: u32, span: u32) -> LeaseAnswer
    ensures { result ≡ open_of m time span }
{
    answered(m, open_change(m, time, span))
}

pub fn renew(m: LeaseManager, client: u32, time: u32, span: u32) -> LeaseAnswer
    ensures { result ≡ renew_of m client time span }
{
    answered(m, renew_change(m, client, time, span))
}

pub fn query(m: LeaseManager, client: u32, time: u32) -> LeaseAnswer
    ensures { result ≡ query_of m client time }
{
    answered(m, query_change(m, client, time))
}
