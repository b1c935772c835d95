// The lock chamber controller: start, issue, resend, receive. Values in and values out; every value of the struct is
// taken. A gate is opened only after reads, in this order and since the last set or part: the other gate 0 and valid,
// then its own two levels valid and at most 5 apart.
#![tactic(auto)]

ghost use Rattle.std.specs.Prelude.{◌≡◌, ◌<◌};
ghost use Rattle.model.specs.Tables.{every};
ghost use Rattle.model.specs.Clients.{no_client};
ghost use Rattle.chamber.specs.Roles.{role_of};
ghost use Rattle.chamber_claim.specs.Chamber.{role_count, point_list, all_different, is_point, points_ok, op_ok, no_read, read_at, is_opening};
ghost use Rattle.chamber_claim.specs.Chamber.{valid_gate, valid_level, near, closed_seen, levels_seen, clear, may_open};
ghost use Rattle.chamber_claim.specs.Chamber.{new_chamber, no_chamber, not_started_in, started_in, start_in};
ghost use Rattle.chamber_claim.specs.Chamber.{not_sent_in, moved_by, sent_in, issue_in, resend_in, read_by, reads_with, reads_by, receive_in};

use chamber_claim::{
    Chamber, ChamberReceive, ChamberSend, ChamberStart, LOCK_POINTS, LatestRead, LockPoints,
};
use model::{Client, Received, Refusal, Request, ResultPacket, SendAnswer, StartAnswer, constants};

// ---- the points of a lock, by their roles

const UPPER_GATE: usize = 0;

const LOWER_GATE: usize = 1;

const UPPER_LEVEL: usize = 2;

const CHAMBER_LEVEL: usize = 3;

const LOWER_LEVEL: usize = 4;

// Levels at most this far apart let a gate be opened between them.
const LEVEL_STEP: u64 = 5;

// The points, in the order of their roles.
fn point_list(points: LockPoints) -> [u8; LOCK_POINTS]
    ensures { result ≡ point_list points }
{
    [
        points.upper,
        points.lower,
        points.level1,
        points.level2,
        points.level3,
    ]
}

// The role of a point.
fn role_of(points: LockPoints, p: u8) -> Option<usize>
    ensures { result ≡ role_of points p }
{
    let ps = point_list(points);
    ps.iter().position(|q| p == *q)
}

fn all_points(points: LockPoints) -> bool
    ensures { result ≡ every is_point (point_list points) }
{
    let ps = point_list(points);
    ps.iter().all(|p| *p <= constants::LAST_POINT)
}

// Pair by pair: two loops over five fields are no plainer.
fn all_different(points: LockPoints) -> bool
    ensures { result ≡ all_different (point_list points) }
{
    ((points.lower != points.upper)
        & ((points.level1 != points.upper)
            & ((points.level2 != points.upper) & (points.level3 != points.upper))))
        & (((points.level1 != points.lower)
            & ((points.level2 != points.lower) & (points.level3 != points.lower)))
            & (((points.level2 != points.level1) & (points.level3 != points.level1))
                & (points.level3 != points.level2)))
}

fn points_ok(points: LockPoints) -> bool
    ensures { result ≡ points_ok points }
{
    all_points(points) & all_different(points)
}

// Gates are read, set or set by part; levels are read.
fn op_ok(i: usize, op: u8) -> bool
    ensures { result ≡ op_ok i op }
{
    ((i <= LOWER_GATE)
        & ((op == constants::READ_OP) | ((op == constants::SET_OP) | (op == constants::PART_OP))))
        | ((i <= LOWER_LEVEL) & (op == constants::READ_OP))
}

// ---- when a gate may be opened

fn no_read() -> LatestRead
    ensures { result ≡ no_read }
{
    LatestRead {
        call: 0,
        value: constants::HALF,
        quality: constants::INVALID,
    }
}

fn read_at(ch: Chamber, i: usize) -> LatestRead
    requires { i < role_count }
    ensures { result ≡ read_at ch i }
{
    ch.reads[i]
}

// Any set or part but set 0.
fn is_opening(op: u8, argument: u32) -> bool
    ensures { result ≡ is_opening op argument }
{
    (op == constants::PART_OP) | ((op == constants::SET_OP) & (argument != constants::HALF))
}

// On a gate a value by hand is valid too.
fn valid_gate(quality: u8) -> bool
    ensures { result ≡ valid_gate quality }
{
    (quality == constants::VALID) | (quality == constants::BY_HAND)
}

// On a level it is not.
fn valid_level(quality: u8) -> bool
    ensures { result ≡ valid_level quality }
{
    quality == constants::VALID
}

fn near(level: u32, other: u32) -> bool
    ensures { result ≡ near level other }
{
    (level as u64 <= other as u64 + LEVEL_STEP) & (other as u64 <= level as u64 + LEVEL_STEP)
}

// The gate was read since the last set or part, closed and valid.
fn closed_seen(ch: Chamber, gate: LatestRead) -> bool
    ensures { result ≡ closed_seen ch gate }
{
    (ch.moved < gate.call) & ((gate.value == constants::HALF) & valid_gate(gate.quality))
}

// Both levels were read after the gate, are valid and near.
fn levels_seen(gate: LatestRead, first: LatestRead, second: LatestRead) -> bool
    ensures { result ≡ levels_seen gate first second }
{
    let valid_a = valid_level(first.quality);
    let valid_b = valid_level(second.quality);
    let level = near(first.value, second.value);
    (gate.call < first.call) & ((gate.call < second.call) & (valid_a & (valid_b & level)))
}

// i is the role of the other gate, j and k are those of the levels.
fn clear(ch: Chamber, i: usize, j: usize, k: usize) -> bool
    requires { (i < role_count) × (j < role_count) × (k < role_count) }
    ensures { result ≡ clear ch i j k }
{
    let gate = read_at(ch, i);
    let first = read_at(ch, j);
    let second = read_at(ch, k);
    closed_seen(ch, gate) & levels_seen(gate, first, second)
}

// i is the role of the gate to open.
fn may_open(ch: Chamber, i: usize) -> bool
    ensures { result ≡ may_open ch i }
{
    if i == UPPER_GATE {
        return clear(ch, LOWER_GATE, UPPER_LEVEL, CHAMBER_LEVEL);
    }
    clear(ch, UPPER_GATE, CHAMBER_LEVEL, LOWER_LEVEL)
}

// ---- start

fn new_chamber(points: LockPoints, d: Client) -> Chamber
    ensures { result ≡ new_chamber points d }
{
    Chamber {
        client: d,
        points,
        moved: 0,
        reads: [no_read(); LOCK_POINTS],
    }
}

fn no_client() -> Client
    ensures { result ≡ no_client }
{
    Client {
        client: 0,
        lease: 0,
        next: 0,
        calls: [client::no_call(); constants::CALL_WINDOW],
    }
}

fn no_chamber() -> Chamber
    ensures { result ≡ no_chamber }
{
    let points = LockPoints {
        upper: 0,
        lower: 0,
        level1: 0,
        level2: 0,
        level3: 0,
    };
    new_chamber(points, no_client())
}

pub fn not_started<E>(refusal: E) -> ChamberStart<E>
    ensures { result ≡ not_started_in refusal }
{
    ChamberStart {
        chamber: no_chamber(),
        answer: Err(refusal),
    }
}

fn started_in(points: LockPoints, start: StartAnswer) -> ChamberStart<Refusal>
    ensures { result ≡ started_in points start }
{
    match start.answer {
        Err(refusal) => not_started(refusal),
        Ok(()) => ChamberStart {
            chamber: new_chamber(points, start.client),
            answer: Ok(()),
        },
    }
}

// Start: 1 points over 63 or not all different, or not a grant.
pub fn start(packet: &[u8], points: LockPoints) -> ChamberStart<Refusal>
    ensures { result ≡ start_in packet.now points }
{
    if points_ok(points) {
        return started_in(points, client::start(packet));
    }
    not_started(Refusal::Malformed)
}

// ---- issue

pub fn not_sent<E>(ch: Chamber, refusal: E) -> ChamberSend<E>
    ensures { result ≡ not_sent_in ch refusal }
{
    ChamberSend {
        chamber: ch,
        answer: Err(refusal),
    }
}

// The last set or part: this one, where it was issued.
fn moved_by(ch: Chamber, op: u8, answer: Result<Request, Refusal>) -> u32
    ensures { result ≡ moved_by ch op answer }
{
    let Ok(q) = answer else {
        return ch.moved;
    };
    if op == constants::READ_OP {
        return ch.moved;
    }
    q.command.call
}

fn sent_in(ch: Chamber, op: u8, send: SendAnswer) -> ChamberSend<Refusal>
    ensures { result ≡ sent_in ch op send }
{
    ChamberSend {
        chamber: Chamber {
            client: send.client,
            moved: moved_by(ch, op, send.answer),
            ..ch
        },
        answer: send.answer,
    }
}

// Issue: 1 no such command, or another op or point; 15 a command is open; 20 an opening whose conditions fail; 16 the
// last number is used.
pub fn issue(ch: Chamber, op: u8, point: u8, argument: u32) -> ChamberSend<Refusal>
    ensures { result ≡ issue_in ch op point argument }
{
    let Some(i) = role_of(ch.points, point) else {
        return not_sent(ch, Refusal::Malformed);
    };
    if !(format_numbers::command_ok(op, point, argument) & op_ok(i, op)) {
        return not_sent(ch, Refusal::Malformed);
    }
    let d = ch.client;
    let first = client::first_open(d);
    if first < d.next {
        return not_sent(ch, Refusal::WindowFull);
    }
    if is_opening(op, argument) & !may_open(ch, i) {
        return not_sent(ch, Refusal::NotSafe);
    }
    sent_in(ch, op, client::issue(d, op, point, argument))
}

// ---- resend

// Resend: 17 call not open. Nothing changes.
pub fn resend(ch: Chamber, call: u32) -> ChamberSend<Refusal>
    ensures { result ≡ resend_in ch call }
{
    let sent = client::resend(ch.client, call);
    ChamberSend {
        chamber: Chamber {
            client: sent.client,
            ..ch
        },
        answer: sent.answer,
    }
}

// ---- receive

fn read_by(packet: ResultPacket) -> LatestRead
    ensures { result ≡ read_by packet }
{
    LatestRead {
        call: packet.call,
        value: packet.result.value,
        quality: packet.result.quality,
    }
}

// A read's result becomes its point's latest.
fn reads_with(ch: Chamber, packet: ResultPacket) -> [LatestRead; LOCK_POINTS]
    ensures { result ≡ reads_with ch packet }
{
    let mut reads = ch.reads;
    let opened = client::call_at(ch.client, packet.call);
    if opened.op == constants::READ_OP {
        if let Some(i) = role_of(ch.points, packet.point) {
            reads[i] = read_by(packet);
        }
    }
    reads
}

fn reads_by(ch: Chamber, answer: Result<Received, Refusal>) -> [LatestRead; LOCK_POINTS]
    ensures { result ≡ reads_by ch answer }
{
    match answer {
        Ok(Received::Completed(packet)) => reads_with(ch, packet),
        Ok(Received::Denied(_)) => ch.reads,
        Ok(Received::Extended(_)) => ch.reads,
        Err(_) => ch.reads,
    }
}

// Receive: 1 and 17 as the client.
pub fn receive(ch: Chamber, packet: &[u8]) -> ChamberReceive
    ensures { result ≡ receive_in ch packet.now }
{
    let received = client::receive(ch.client, packet);
    let reads = reads_by(ch, received.answer);
    ChamberReceive {
        chamber: Chamber {
            client: received.client,
            reads,
            ..ch
        },
        answer: received.answer,
    }
}
