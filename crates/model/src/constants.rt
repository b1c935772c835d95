// Every number of docs/REFERENCE.md and docs/STATE.md that the code names, each once; derived ones are computed. The
// definitions name them in the same words and order: specs/Limits.antt, specs/Refusals.antt, specs/States.antt. A size,
// a count or a field's place in its layout is a usize, a field's value has its field's type. A place is computed from
// the field before it, a size from the last field; the first field of a layout stands at its start.

use crate::ArgumentRange;

// ---- numbers: 2^31, which stands for 0 in a signed field; the greatest of 8 and of 32 bits; 2^32

pub const HALF: u32 = 2147483648;

pub const LAST_8: u32 = 255;

pub const LAST_32: u32 = 4294967295;

pub const WORD: u64 = LAST_32 as u64 + 1;

// ---- bytes of a field: a number; three zeros; a place of the log; a pair of offset and length

pub const NUMBER_SIZE: usize = 4;

pub const ZEROS_SIZE: usize = 3;

pub const END_SIZE: usize = 8;

pub const PAIR_SIZE: usize = 2 * NUMBER_SIZE;

// ---- ops

pub const READ_OP: u8 = 0;

pub const SET_OP: u8 = 1;

pub const STEP_OP: u8 = 2;

pub const REPORT_OP: u8 = 3;

pub const FAULT_OP: u8 = 4;

pub const PART_OP: u8 = 5;

// The argument of part that means the whole range.
pub const WHOLE_PART: u32 = 1000;

// The arguments by op: read 0; set, step and report any; fault 0; part 0 to 1000.
pub const ARGUMENT_RANGES: [ArgumentRange; 6] = [
    ArgumentRange {
        least: HALF,
        greatest: HALF,
    },
    ArgumentRange {
        least: 0,
        greatest: LAST_32,
    },
    ArgumentRange {
        least: 0,
        greatest: LAST_32,
    },
    ArgumentRange {
        least: 0,
        greatest: LAST_32,
    },
    ArgumentRange {
        least: HALF,
        greatest: HALF,
    },
    ArgumentRange {
        least: HALF,
        greatest: HALF + WHOLE_PART,
    },
];

// ---- outcomes: carried out; the value would be out of range; the value is invalid; the fallback was put; a step
// stopped at the range's end

pub const CARRIED_OUT: u8 = 0;

pub const OUT_OF_RANGE: u8 = 1;

pub const ON_INVALID: u8 = 2;

pub const FELL_BACK: u8 = 3;

pub const STOPPED: u8 = 4;

// ---- qualities: valid, invalid, entered by hand

pub const VALID: u8 = 0;

pub const INVALID: u8 = 1;

pub const BY_HAND: u8 = 2;

// ---- a point's status

pub const ABSENT: u8 = 0;

pub const HELD: u8 = 1;

pub const GIVEN: u8 = 2;

pub const RELEASED: u8 = 3;

// ---- greatest values of the fields with a range

pub const LAST_POINT: u8 = 63;

pub const LAST_SERVER: u8 = 15;

pub const LAST_OP: u8 = PART_OP;

pub const LAST_OUTCOME: u8 = STOPPED;

pub const LAST_QUALITY: u8 = BY_HAND;

pub const LAST_STATUS: u8 = RELEASED;

// ---- counts: points of a plan, clients of a server, completion records of one client and of a server

pub const POINT_COUNT: usize = LAST_POINT as usize + 1;

pub const CLIENT_COUNT: usize = 32;

pub const CALL_WINDOW: usize = 16;

pub const RECORD_COUNT: usize = CLIENT_COUNT * CALL_WINDOW;

// A call is at most this far above its request's done, or above its client's floor.
pub const LAST_IN_WINDOW: u64 = CALL_WINDOW as u64 - 1;

// Leases of a lease manager, and the longest span in seconds.
pub const LEASE_COUNT: usize = 32;

pub const LONGEST_SPAN: u32 = 86400;

// ---- packets: kinds; a result has two: the first without a time of execution

pub const REQUEST_KIND: u8 = 1;

pub const FIRST_RESULT_KIND: u8 = 2;

pub const REFUSAL_KIND: u8 = 3;

pub const RECEIPT_KIND: u8 = 4;

pub const NOTICE_KIND: u8 = 5;

pub const GRANT_KIND: u8 = 6;

pub const RESULT_KIND: u8 = 7;

// ---- fields of the packets, and bytes by kind; the kind is the first byte

pub const REQUEST_OP: usize = 1;

pub const REQUEST_POINT: usize = REQUEST_OP + 1;

pub const REQUEST_ZERO: usize = REQUEST_POINT + 1;

pub const REQUEST_CLIENT: usize = REQUEST_ZERO + 1;

pub const REQUEST_CALL: usize = REQUEST_CLIENT + NUMBER_SIZE;

pub const REQUEST_DONE: usize = REQUEST_CALL + NUMBER_SIZE;

pub const REQUEST_LEASE: usize = REQUEST_DONE + NUMBER_SIZE;

pub const REQUEST_ARGUMENT: usize = REQUEST_LEASE + NUMBER_SIZE;

pub const REQUEST_SIZE: usize = REQUEST_ARGUMENT + NUMBER_SIZE;

pub const RESULT_OUTCOME: usize = 1;

pub const RESULT_POINT: usize = RESULT_OUTCOME + 1;

pub const RESULT_QUALITY: usize = RESULT_POINT + 1;

pub const RESULT_CLIENT: usize = RESULT_QUALITY + 1;

pub const RESULT_CALL: usize = RESULT_CLIENT + NUMBER_SIZE;

pub const RESULT_VALUE: usize = RESULT_CALL + NUMBER_SIZE;

pub const RESULT_TIME: usize = RESULT_VALUE + NUMBER_SIZE;

pub const FIRST_RESULT_SIZE: usize = RESULT_TIME;

pub const RESULT_SIZE: usize = RESULT_TIME + NUMBER_SIZE;

pub const REFUSAL_NUMBER: usize = 1;

pub const REFUSAL_POINT: usize = REFUSAL_NUMBER + 1;

pub const REFUSAL_ZERO: usize = REFUSAL_POINT + 1;

pub const REFUSAL_CLIENT: usize = REFUSAL_ZERO + 1;

pub const REFUSAL_CALL: usize = REFUSAL_CLIENT + NUMBER_SIZE;

pub const REFUSAL_SIZE: usize = REFUSAL_CALL + NUMBER_SIZE;

pub const RECEIPT_POINT: usize = 1;

pub const RECEIPT_SERVER: usize = RECEIPT_POINT + 1;

pub const RECEIPT_ZERO: usize = RECEIPT_SERVER + 1;

pub const RECEIPT_MOVE: usize = RECEIPT_ZERO + 1;

pub const RECEIPT_SIZE: usize = RECEIPT_MOVE + NUMBER_SIZE;

pub const NOTICE_ZEROS: usize = 1;

pub const NOTICE_CLIENT: usize = NOTICE_ZEROS + ZEROS_SIZE;

pub const NOTICE_TIME: usize = NOTICE_CLIENT + NUMBER_SIZE;

pub const NOTICE_SIZE: usize = NOTICE_TIME + NUMBER_SIZE;

pub const GRANT_ZEROS: usize = 1;

pub const GRANT_CLIENT: usize = GRANT_ZEROS + ZEROS_SIZE;

pub const GRANT_LEASE: usize = GRANT_CLIENT + NUMBER_SIZE;

pub const GRANT_SIZE: usize = GRANT_LEASE + NUMBER_SIZE;

// By kind; there is no kind 0.
pub const PACKET_LENGTHS: [usize; 8] = [
    0,
    REQUEST_SIZE,
    FIRST_RESULT_SIZE,
    REFUSAL_SIZE,
    RECEIPT_SIZE,
    NOTICE_SIZE,
    GRANT_SIZE,
    RESULT_SIZE,
];

// The refusals that make a packet.
pub const FIRST_DENIED: u8 = NOT_HELD as u8;

pub const LAST_DENIED: u8 = LOG_FULL as u8;

// ---- the plan: fields of an entry, the bytes of one, and of all

pub const PLAN_HIGH: usize = NUMBER_SIZE;

pub const PLAN_FALLBACK: usize = PLAN_HIGH + NUMBER_SIZE;

pub const PLAN_HOME: usize = PLAN_FALLBACK + NUMBER_SIZE;

pub const PLAN_ZEROS: usize = PLAN_HOME + 1;

pub const PLAN_ROW: usize = PLAN_ZEROS + ZEROS_SIZE;

pub const PLAN_SIZE: usize = PLAN_ROW * POINT_COUNT;

// ---- the log: its magic, the fields and bytes of its head, its records' kinds, fields and bytes; a take has 8 and its
// image

pub const LOG_MAGIC: [u8; 4] = *b"WLG1";

pub const HEAD_SERVER: usize = NUMBER_SIZE;

pub const HEAD_ZEROS: usize = HEAD_SERVER + 1;

pub const HEAD_SIZE: usize = HEAD_ZEROS + ZEROS_SIZE;

pub const FIRST_EXECUTED_KIND: u8 = 1;

pub const GONE_KIND: u8 = 2;

pub const GIVE_KIND: u8 = 3;

pub const TAKE_KIND: u8 = 4;

pub const RELEASE_KIND: u8 = 5;

pub const EXECUTED_KIND: u8 = 6;

pub const EXECUTED_OP: usize = 1;

pub const EXECUTED_POINT: usize = EXECUTED_OP + 1;

pub const EXECUTED_OUTCOME: usize = EXECUTED_POINT + 1;

pub const EXECUTED_CLIENT: usize = EXECUTED_OUTCOME + 1;

pub const EXECUTED_CALL: usize = EXECUTED_CLIENT + NUMBER_SIZE;

pub const EXECUTED_DONE: usize = EXECUTED_CALL + NUMBER_SIZE;

pub const EXECUTED_ARGUMENT: usize = EXECUTED_DONE + NUMBER_SIZE;

pub const EXECUTED_VALUE: usize = EXECUTED_ARGUMENT + NUMBER_SIZE;

pub const EXECUTED_QUALITY: usize = EXECUTED_VALUE + NUMBER_SIZE;

pub const EXECUTED_ZEROS: usize = EXECUTED_QUALITY + 1;

pub const EXECUTED_TIME: usize = EXECUTED_ZEROS + ZEROS_SIZE;

pub const FIRST_EXECUTED_SIZE: usize = EXECUTED_TIME;

pub const EXECUTED_SIZE: usize = EXECUTED_TIME + NUMBER_SIZE;

// Fields and bytes of a notice, which has its own kind here.
pub const GONE_SIZE: usize = NOTICE_SIZE;

pub const GIVE_POINT: usize = 1;

pub const GIVE_DESTINATION: usize = GIVE_POINT + 1;

pub const GIVE_ZERO: usize = GIVE_DESTINATION + 1;

pub const GIVE_MOVE: usize = GIVE_ZERO + 1;

pub const GIVE_SIZE: usize = GIVE_MOVE + NUMBER_SIZE;

pub const TAKE_ZEROS: usize = 1;

pub const TAKE_LENGTH: usize = TAKE_ZEROS + ZEROS_SIZE;

pub const TAKE_HEAD: usize = TAKE_LENGTH + NUMBER_SIZE;

pub const RELEASE_POINT: usize = 1;

pub const RELEASE_ZERO: usize = RELEASE_POINT + 1;

pub const RELEASE_SECOND_ZERO: usize = RELEASE_ZERO + 1;

pub const RELEASE_MOVE: usize = RELEASE_SECOND_ZERO + 1;

pub const RELEASE_SIZE: usize = RELEASE_MOVE + NUMBER_SIZE;

// ---- images: the magics, the fields before the parts, the part of the point, the rows of the two tables, the least
// and the greatest lengths

pub const FIRST_IMAGE_MAGIC: [u8; 4] = *b"MVI1";

pub const IMAGE_MAGIC: [u8; 4] = *b"MVI2";

pub const IMAGE_POINT: usize = NUMBER_SIZE;

pub const IMAGE_DESTINATION: usize = IMAGE_POINT + 1;

pub const IMAGE_SOURCE: usize = IMAGE_DESTINATION + 1;

pub const IMAGE_ZERO: usize = IMAGE_SOURCE + 1;

pub const IMAGE_MOVE: usize = IMAGE_ZERO + 1;

pub const IMAGE_HEARD: usize = IMAGE_MOVE + NUMBER_SIZE;

pub const IMAGE_POINT_PAIR: usize = IMAGE_HEARD + NUMBER_SIZE;

pub const IMAGE_POINT_LENGTH: usize = IMAGE_POINT_PAIR + NUMBER_SIZE;

pub const IMAGE_FLOORS_PAIR: usize = IMAGE_POINT_PAIR + PAIR_SIZE;

pub const IMAGE_FLOORS_LENGTH: usize = IMAGE_FLOORS_PAIR + NUMBER_SIZE;

pub const IMAGE_ENTRIES_PAIR: usize = IMAGE_FLOORS_PAIR + PAIR_SIZE;

pub const IMAGE_ENTRIES_LENGTH: usize = IMAGE_ENTRIES_PAIR + NUMBER_SIZE;

pub const PARTS_START: usize = IMAGE_ENTRIES_PAIR + PAIR_SIZE;

pub const IMAGE_QUALITY: usize = PARTS_START + NUMBER_SIZE;

pub const IMAGE_ZEROS: usize = IMAGE_QUALITY + 1;

pub const POINT_PART: usize = IMAGE_ZEROS + ZEROS_SIZE - PARTS_START;

pub const FLOOR_NUMBER: usize = NUMBER_SIZE;

pub const FLOOR_ROW: usize = FLOOR_NUMBER + NUMBER_SIZE;

pub const ENTRY_CALL: usize = NUMBER_SIZE;

pub const ENTRY_ARGUMENT: usize = ENTRY_CALL + NUMBER_SIZE;

pub const ENTRY_VALUE: usize = ENTRY_ARGUMENT + NUMBER_SIZE;

pub const ENTRY_OP: usize = ENTRY_VALUE + NUMBER_SIZE;

pub const ENTRY_OUTCOME: usize = ENTRY_OP + 1;

pub const ENTRY_QUALITY: usize = ENTRY_OUTCOME + 1;

pub const ENTRY_ZERO: usize = ENTRY_QUALITY + 1;

pub const ENTRY_TIME: usize = ENTRY_ZERO + 1;

pub const FIRST_ENTRY_ROW: usize = ENTRY_TIME;

pub const ENTRY_ROW: usize = ENTRY_TIME + NUMBER_SIZE;

pub const LEAST_IMAGE: usize = PARTS_START + POINT_PART;

pub const FIRST_GREATEST_IMAGE: usize = LEAST_IMAGE
    + FLOOR_ROW * CLIENT_COUNT
    + FIRST_ENTRY_ROW * RECORD_COUNT;

pub const GREATEST_IMAGE: usize = LEAST_IMAGE + FLOOR_ROW * CLIENT_COUNT + ENTRY_ROW * RECORD_COUNT;

// ---- a server's state: the buffer, the magic, the head's fields, those of a point's and of a completion record's row,
// the places of the tables

pub const STATE_SIZE: usize = 32768;

pub const STATE_MAGIC: [u8; 4] = *b"WST2";

pub const STATE_SERVER: usize = NUMBER_SIZE;

pub const STATE_ZEROS: usize = STATE_SERVER + 1;

pub const STATE_HEARD: usize = STATE_ZEROS + ZEROS_SIZE;

pub const STATE_CLIENTS: usize = STATE_HEARD + NUMBER_SIZE;

pub const STATE_RECORDS: usize = STATE_CLIENTS + NUMBER_SIZE;

pub const STATE_FILL: usize = STATE_RECORDS + NUMBER_SIZE;

pub const STATE_LENGTH: usize = STATE_FILL + NUMBER_SIZE;

pub const STATE_MARK: usize = STATE_LENGTH + END_SIZE;

pub const STATE_HEAD: usize = STATE_MARK + END_SIZE;

pub const POINT_QUALITY: usize = 1;

pub const POINT_DESTINATION: usize = POINT_QUALITY + 1;

pub const POINT_ZERO: usize = POINT_DESTINATION + 1;

pub const POINT_VALUE: usize = POINT_ZERO + 1;

pub const POINT_MOVE: usize = POINT_VALUE + NUMBER_SIZE;

pub const POINT_TAKEN: usize = POINT_MOVE + NUMBER_SIZE;

pub const POINT_GIVE_END: usize = POINT_TAKEN + NUMBER_SIZE;

pub const POINT_TAKE_END: usize = POINT_GIVE_END + END_SIZE;

pub const POINT_ROW: usize = POINT_TAKE_END + END_SIZE;

pub const RECORD_CALL: usize = NUMBER_SIZE;

pub const RECORD_ARGUMENT: usize = RECORD_CALL + NUMBER_SIZE;

pub const RECORD_VALUE: usize = RECORD_ARGUMENT + NUMBER_SIZE;

pub const RECORD_OP: usize = RECORD_VALUE + NUMBER_SIZE;

pub const RECORD_OUTCOME: usize = RECORD_OP + 1;

pub const RECORD_QUALITY: usize = RECORD_OUTCOME + 1;

pub const RECORD_POINT: usize = RECORD_QUALITY + 1;

pub const RECORD_TIME: usize = RECORD_POINT + 1;

pub const RECORD_END: usize = RECORD_TIME + NUMBER_SIZE;

pub const RECORD_ROW: usize = RECORD_END + END_SIZE;

pub const PLAN_START: usize = STATE_HEAD;

pub const POINTS_START: usize = PLAN_START + PLAN_SIZE;

pub const FLOORS_START: usize = POINTS_START + POINT_ROW * POINT_COUNT;

pub const RECORDS_START: usize = FLOORS_START + FLOOR_ROW * CLIENT_COUNT;

pub const STATE_END: usize = RECORDS_START + RECORD_ROW * RECORD_COUNT;

// ---- the checkpoint: the buffer, the magics, the head's fields and pairs, its rows (the fronts of the state's,
// without ends), the places of its parts

pub const CHECKPOINT_SIZE: usize = 32768;

pub const FIRST_CHECKPOINT_MAGIC: [u8; 4] = *b"WLG2";

pub const CHECKPOINT_MAGIC: [u8; 4] = *b"WLG3";

pub const CHECKPOINT_SERVER: usize = NUMBER_SIZE;

pub const CHECKPOINT_HEARD: usize = CHECKPOINT_SERVER + 1 + ZEROS_SIZE;

// Server number, zeros and heard time: as in the state's head.
pub const CHECKPOINT_SHARED: usize = CHECKPOINT_HEARD + NUMBER_SIZE - CHECKPOINT_SERVER;

pub const CHECKPOINT_PLAN_PAIR: usize = CHECKPOINT_HEARD + NUMBER_SIZE;

pub const CHECKPOINT_PLAN_LENGTH: usize = CHECKPOINT_PLAN_PAIR + NUMBER_SIZE;

pub const CHECKPOINT_POINTS_PAIR: usize = CHECKPOINT_PLAN_PAIR + PAIR_SIZE;

pub const CHECKPOINT_POINTS_LENGTH: usize = CHECKPOINT_POINTS_PAIR + NUMBER_SIZE;

pub const CHECKPOINT_CLIENTS_PAIR: usize = CHECKPOINT_POINTS_PAIR + PAIR_SIZE;

pub const CHECKPOINT_CLIENTS_LENGTH: usize = CHECKPOINT_CLIENTS_PAIR + NUMBER_SIZE;

pub const CHECKPOINT_RECORDS_PAIR: usize = CHECKPOINT_CLIENTS_PAIR + PAIR_SIZE;

pub const CHECKPOINT_RECORDS_LENGTH: usize = CHECKPOINT_RECORDS_PAIR + NUMBER_SIZE;

pub const CHECKPOINT_HEAD: usize = CHECKPOINT_RECORDS_PAIR + PAIR_SIZE;

pub const CHECKPOINT_POINT: usize = POINT_GIVE_END;

pub const FIRST_CHECKPOINT_RECORD: usize = RECORD_TIME;

pub const CHECKPOINT_RECORD: usize = RECORD_END;

pub const PLAN_PART: usize = CHECKPOINT_HEAD;

pub const POINTS_PART: usize = PLAN_PART + PLAN_SIZE;

pub const CLIENTS_PART: usize = POINTS_PART + CHECKPOINT_POINT * POINT_COUNT;

// ---- what holds a completion record's bytes

pub const IN_RECORD: u32 = 1;

pub const IN_IMAGE: u32 = 2;

pub const IN_CHECKPOINT: u32 = 3;

// ---- refusals: 0 for none, or the number

pub const NO_REFUSAL: u32 = 0;

pub const MALFORMED: u32 = 1;

pub const TOO_SHORT: u32 = 2;

pub const NOT_HELD: u32 = 3;

pub const LEASE_OVER: u32 = 4;

pub const UNDER_FLOOR: u32 = 5;

pub const OTHER_COMMAND: u32 = 6;

pub const NOT_SYNCED: u32 = 7;

pub const CLIENTS_FULL: u32 = 8;

pub const LOG_FULL: u32 = 9;

pub const BAD_MARK: u32 = 10;

pub const WRONG_DESTINATION: u32 = 11;

pub const OLD_MOVE: u32 = 12;

pub const ALREADY_HELD: u32 = 13;

pub const BAD_LOG: u32 = 14;

pub const WINDOW_FULL: u32 = 15;

pub const NUMBERS_OUT: u32 = 16;

pub const UNKNOWN: u32 = 17;

pub const LEASES_FULL: u32 = 18;

pub const UNSOUND: u32 = 19;

pub const NOT_SAFE: u32 = 20;

pub const ALREADY_WAITING: u32 = 21;

// ---- some of them in another width

pub const HALF_U64: u64 = HALF as u64;

pub const LAST_32_U64: u64 = LAST_32 as u64;

pub const LAST_POINT_U32: u32 = LAST_POINT as u32;

pub const LAST_SERVER_U32: u32 = LAST_SERVER as u32;

pub const WHOLE_PART_U64: u64 = WHOLE_PART as u64;

pub const CLIENT_COUNT_U32: u32 = CLIENT_COUNT as u32;

pub const RECORD_COUNT_U32: u32 = RECORD_COUNT as u32;

pub const CALL_WINDOW_U32: u32 = CALL_WINDOW as u32;

pub const CALL_WINDOW_U64: u64 = CALL_WINDOW as u64;

pub const RESULT_KIND_U32: u32 = RESULT_KIND as u32;

pub const REFUSAL_KIND_U32: u32 = REFUSAL_KIND as u32;

pub const GRANT_KIND_U32: u32 = GRANT_KIND as u32;

pub const NOTICE_KIND_U32: u32 = NOTICE_KIND as u32;

pub const REQUEST_SIZE_U32: u32 = REQUEST_SIZE as u32;

pub const RESULT_SIZE_U32: u32 = RESULT_SIZE as u32;

pub const REFUSAL_SIZE_U32: u32 = REFUSAL_SIZE as u32;

pub const RECEIPT_SIZE_U32: u32 = RECEIPT_SIZE as u32;

pub const NOTICE_SIZE_U32: u32 = NOTICE_SIZE as u32;

pub const GRANT_SIZE_U32: u32 = GRANT_SIZE as u32;

pub const HEAD_SIZE_U64: u64 = HEAD_SIZE as u64;

pub const EXECUTED_SIZE_U64: u64 = EXECUTED_SIZE as u64;

pub const GONE_SIZE_U64: u64 = GONE_SIZE as u64;

pub const GIVE_SIZE_U64: u64 = GIVE_SIZE as u64;

pub const TAKE_HEAD_U64: u64 = TAKE_HEAD as u64;

pub const RELEASE_SIZE_U64: u64 = RELEASE_SIZE as u64;

pub const PARTS_START_U32: u32 = PARTS_START as u32;

pub const POINT_PART_U32: u32 = POINT_PART as u32;

pub const FLOOR_ROW_U32: u32 = FLOOR_ROW as u32;

pub const ENTRY_ROW_U32: u32 = ENTRY_ROW as u32;

pub const LEAST_IMAGE_U32: u32 = LEAST_IMAGE as u32;
