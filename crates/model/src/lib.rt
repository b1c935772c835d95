// The kernel's types: plain data. What they mean stands in specs/.
// A signed number x of 32 bits is kept as x + 2^31, unsigned, in every field.
#![tactic(auto)]

ghost use Rattle.std.specs.Prelude.{◌≡◌};
ghost use Rattle.model.specs.Refusals.{number_of};

pub mod constants;

// ---- refusals

// The refusals, each with its number.
#[derive(Clone, Copy, Debug, PartialEq, Eq)]
pub enum Refusal {
    Malformed = constants::MALFORMED as isize,
    TooShort = constants::TOO_SHORT as isize,
    NotHeld = constants::NOT_HELD as isize,
    LeaseOver = constants::LEASE_OVER as isize,
    UnderFloor = constants::UNDER_FLOOR as isize,
    OtherCommand = constants::OTHER_COMMAND as isize,
    NotSynced = constants::NOT_SYNCED as isize,
    ClientsFull = constants::CLIENTS_FULL as isize,
    LogFull = constants::LOG_FULL as isize,
    BadMark = constants::BAD_MARK as isize,
    WrongDestination = constants::WRONG_DESTINATION as isize,
    OldMove = constants::OLD_MOVE as isize,
    AlreadyHeld = constants::ALREADY_HELD as isize,
    BadLog = constants::BAD_LOG as isize,
    WindowFull = constants::WINDOW_FULL as isize,
    NumbersOut = constants::NUMBERS_OUT as isize,
    Unknown = constants::UNKNOWN as isize,
    LeasesFull = constants::LEASES_FULL as isize,
    Unsound = constants::UNSOUND as isize,
    NotSafe = constants::NOT_SAFE as isize,
    AlreadyWaiting = constants::ALREADY_WAITING as isize,
}

impl Refusal {
    // Its number.
    pub fn number(self) -> u32
        ensures { result ≡ number_of self }
    {
        self as u32
    }
}

// ---- plan and commands

// One point's entry of the plan.
#[derive(Clone, Copy)]
pub struct PlanEntry {
    pub low: u32,
    pub high: u32,
    pub fallback: u32,
    pub home: u8,
}

// The arguments that an op takes.
#[derive(Clone, Copy)]
pub struct ArgumentRange {
    pub least: u32,
    pub greatest: u32,
}

// A point's value and quality: 0 valid, 1 invalid.
#[derive(Clone, Copy)]
pub struct Reading {
    pub value: u32,
    pub quality: u8,
}

// What a command answers: its outcome, the point's value and quality after it, and the heard time of the server that
// executed it. The time is 0 where it was read from a form without one.
#[derive(Clone, Copy)]
pub struct CommandResult {
    pub outcome: u8,
    pub value: u32,
    pub quality: u8,
    pub time: u32,
}

// A command with its id: client and call.
#[repr(C)]
#[derive(Clone, Copy)]
pub struct Command {
    pub client: u32,
    pub call: u32,
    pub op: u8,
    pub point: u8,
    pub argument: u32,
}

// ---- packets

// Packet 1. `lease` is the lease end.
#[repr(C)]
#[derive(Clone, Copy)]
pub struct Request {
    pub command: Command,
    pub done: u32,
    pub lease: u32,
}

// Packet 7, or 2, which has no time.
#[derive(Clone, Copy)]
pub struct ResultPacket {
    pub client: u32,
    pub call: u32,
    pub point: u8,
    pub result: CommandResult,
    pub timed: bool,
}

// Packet 3.
#[derive(Clone, Copy)]
pub struct RefusalPacket {
    pub refusal: u8,
    pub point: u8,
    pub client: u32,
    pub call: u32,
}

// Packet 4. `server` is the taker.
#[derive(Clone, Copy)]
pub struct Receipt {
    pub point: u8,
    pub server: u8,
    pub move_number: u32,
}

// Packet 5, and log record 2 (gone).
#[derive(Clone, Copy)]
pub struct Notice {
    pub client: u32,
    pub time: u32,
}

// Packet 6. `lease` is the lease end.
#[derive(Clone, Copy)]
pub struct Grant {
    pub client: u32,
    pub lease: u32,
}

// What a parser finds, if the bytes are a packet: a request, a result in either form, or one of the other four.
#[derive(Clone, Copy)]
pub enum Packet {
    Requested(Request),
    Resulted(ResultPacket),
    Refused(RefusalPacket),
    Receipted(Receipt),
    Noticed(Notice),
    Granted(Grant),
}

// ---- log records (gone is a Notice; a take is the image, read from its place in the log)

// Log record 6, or 1, which has no time.
#[derive(Clone, Copy)]
pub struct Executed {
    pub command: Command,
    pub done: u32,
    pub result: CommandResult,
    pub timed: bool,
}

// Log record 3.
#[derive(Clone, Copy)]
pub struct Give {
    pub point: u8,
    pub destination: u8,
    pub move_number: u32,
}

// Log record 5. `move_number` is the give's.
#[derive(Clone, Copy)]
pub struct Release {
    pub point: u8,
    pub move_number: u32,
}

// ---- images

// A client with its floor: a row of an image and of a server's state.
#[derive(Clone, Copy)]
pub struct Floor {
    pub client: u32,
    pub floor: u32,
}

// A completion record in an image: a command on the image's point, and its result.
#[derive(Clone, Copy)]
pub struct ImageEntry {
    pub client: u32,
    pub call: u32,
    pub op: u8,
    pub argument: u32,
    pub result: CommandResult,
}

// The fields of an image outside its two tables, with the numbers of their rows.
#[derive(Clone, Copy)]
pub struct ImageHead {
    pub point: u8,
    pub destination: u8,
    pub source: u8,
    pub move_number: u32,
    pub heard: u32,
    pub value: u32,
    pub quality: u8,
    pub floors: u32,
    pub entries: u32,
    pub timed: bool,
}

// ---- a server's state (paper: cabinet), rows of the lent buffer

// A point at a server. `status`: 0 absent, 1 held, 2 given, 3 released. `taken_move` is the latest taken move number
// (0: never taken); `give_end` and `take_end` are the log ends of the latest give and take (0: none).
#[derive(Clone, Copy)]
pub struct Point {
    pub status: u8,
    pub quality: u8,
    pub destination: u8,
    pub value: u32,
    pub move_number: u32,
    pub taken_move: u32,
    pub give_end: u64,
    pub take_end: u64,
}

// A completion record. `end` is the end of the log record that brought it.
#[derive(Clone, Copy)]
pub struct Completion {
    pub command: Command,
    pub result: CommandResult,
    pub end: u64,
}

// The answer of a server's call: the refusal's number, 0 for none, and the bytes written to the output.
#[derive(Clone, Copy)]
pub struct Answer {
    pub refusal: u32,
    pub wrote: u32,
}

// The answer of the first walk over a log: the refusal's number, 0 for none, and the end of the last whole record (0
// where refused).
#[repr(C)]
#[derive(Clone, Copy)]
pub struct LogEnd {
    pub refusal: u32,
    pub end: u64,
}

// Where the bytes of a completion record lie: the refusal's number, 0 for none; what holds them, 1 a log record, 2 an
// entry of an image in the log, 3 an entry of the checkpoint; from start to end of the tail (1, 2) or of the checkpoint
// (3). All 0 but the number where refused.
#[repr(C)]
#[derive(Clone, Copy)]
pub struct Place {
    pub refusal: u32,
    pub source: u32,
    pub start: usize,
    pub end: usize,
}

// ---- the client (paper: desk)

// An open call; call 0 is a free place.
#[repr(C)]
#[derive(Clone, Copy)]
pub struct OpenCall {
    pub call: u32,
    pub op: u8,
    pub point: u8,
    pub argument: u32,
}

// A client: its number, lease end, next call number, and the open calls, each at the place call mod 16.
#[repr(C)]
#[derive(Clone, Copy)]
pub struct Client {
    pub client: u32,
    pub lease: u32,
    pub next: u32,
    pub calls: [OpenCall; constants::CALL_WINDOW],
}

// What a packet that receive takes in brings.
#[derive(Clone, Copy)]
pub enum Received {
    // a result: its call is closed
    Completed(ResultPacket),
    // a refusal of an open call: it stays open
    Denied(RefusalPacket),
    // a later, or the same, lease end
    Extended(Grant),
}

// What start answers.
#[derive(Clone, Copy)]
pub struct StartAnswer {
    pub client: Client,
    pub answer: Result<(), Refusal>,
}

// What issue and resend answer.
#[derive(Clone, Copy)]
pub struct SendAnswer {
    pub client: Client,
    pub answer: Result<Request, Refusal>,
}

// What receive answers.
#[derive(Clone, Copy)]
pub struct ReceiveAnswer {
    pub client: Client,
    pub answer: Result<Received, Refusal>,
}

// ---- the lease manager (paper: lease office)

// A lease; client 0 is a free place. `lease` is its end.
#[repr(C)]
#[derive(Clone, Copy)]
pub struct Lease {
    pub client: u32,
    pub lease: u32,
}

// `issued` is the latest client number granted.
#[repr(C)]
#[derive(Clone, Copy)]
pub struct LeaseManager {
    pub time: u32,
    pub issued: u32,
    pub leases: [Lease; constants::LEASE_COUNT],
}

// What a lease manager tells of a client.
#[derive(Clone, Copy)]
pub enum Told {
    ByGrant(Grant),
    ByNotice(Notice),
}

// What open, renew and query answer.
#[derive(Clone, Copy)]
pub struct LeaseAnswer {
    pub manager: LeaseManager,
    pub answer: Result<Told, Refusal>,
}
