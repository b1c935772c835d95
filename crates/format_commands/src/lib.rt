// The plan, and the rule of each op on a point's value and quality. A signed number x of 32 bits is kept as x + 2^31.
#![tactic(auto)]

ghost use Rattle.std.specs.Prelude.{◌≡◌, true, ◌+◌, ◌-◌, ◌%◌, ◌≤◌, length, drop};
ghost use Rattle.model.specs.Choice.{pick};
ghost use Rattle.model.specs.Numbers.{half, nearest};
ghost use Rattle.model.specs.Plan.{plan_entry_of, plan_entry_ok, plan_row_ok, plan_ok};
ghost use Rattle.model.specs.Versions.{second, third};
ghost use Rattle.model.specs.Rules.{same, command_result, sum_in_range, end_past, past_end, set_rule, step_rule, report_rule, fault_rule, part_rule, argument_ok};
ghost use Rattle.model.specs.Limits.{plan_row, part_op, whole_part, carried_out};
ghost use Rattle.format_commands.specs.Results.{checked_rule};

use model::{CommandResult, PlanEntry, Reading, constants};

// ---- the plan

// The entry in the 16 bytes from at.
pub fn plan_entry(s: &[u8], at: usize) -> PlanEntry
    requires { at + plan_row ≤ length s.now }
    ensures { result ≡ plan_entry_of (drop at s.now) }
{
    PlanEntry {
        low: format_numbers::read_signed(s, at),
        high: format_numbers::read_signed(s, at + constants::PLAN_HIGH),
        fallback: format_numbers::read_signed(s, at + constants::PLAN_FALLBACK),
        home: s[at + constants::PLAN_HOME],
    }
}

// low <= fallback <= high, and the home is a server.
fn plan_entry_ok(e: PlanEntry) -> bool
    ensures { result ≡ plan_entry_ok e }
{
    (e.home <= constants::LAST_SERVER) & ((e.low <= e.fallback) & (e.fallback <= e.high))
}

// The 16 bytes from at are an entry.
pub fn plan_row_ok(s: &[u8], at: usize) -> bool
    requires { at + plan_row ≤ length s.now }
    ensures { result ≡ plan_row_ok (drop at s.now) }
{
    let zeros = format_numbers::zeros3_at(s, at + constants::PLAN_ZEROS);
    let entry = plan_entry_ok(plan_entry(s, at));
    zeros & entry
}

// The bytes are a plan.
pub fn plan_ok(s: &[u8]) -> bool
    ensures { result ≡ plan_ok s.now }
{
    if s.len() != constants::POINT_COUNT * constants::PLAN_ROW {
        return false;
    }
    (0..constants::POINT_COUNT).all(|i| plan_row_ok(s, constants::PLAN_ROW * i))
}

// ---- the rule of each op

// Outcome, value and quality; a rule knows no time.
fn result_of(outcome: u8, v: u32, quality: u8) -> CommandResult
    ensures { result ≡ command_result outcome v quality }
{
    CommandResult {
        outcome,
        value: v,
        quality,
        time: 0,
    }
}

// An outcome, and no change.
fn unchanged(outcome: u8, reading: Reading) -> CommandResult
    ensures { result ≡ same outcome reading }
{
    CommandResult {
        outcome,
        value: reading.value,
        quality: reading.quality,
        time: 0,
    }
}

// v + argument is in range.
fn sum_in_range(e: PlanEntry, v: u32, argument: u32) -> bool
    ensures { result ≡ sum_in_range e v argument }
{
    let low = e.low as u64;
    let high = e.high as u64;
    let sum = v as u64 + argument as u64;
    (low + constants::HALF_U64 <= sum) & (sum <= high + constants::HALF_U64)
}

// v + argument, where it is in range.
fn sum(e: PlanEntry, v: u32, argument: u32) -> u32
    requires { sum_in_range e v argument ≡ true }
    ensures { result ≡ v + argument - half }
{
    (v as u64 + argument as u64 - constants::HALF_U64) as u32
}

// A value that was set is by hand.
fn set_rule(e: PlanEntry, argument: u32, reading: Reading) -> CommandResult
    ensures { result ≡ set_rule second e argument reading }
{
    if format_numbers::in_range(e, argument) {
        result_of(constants::CARRIED_OUT, argument, constants::BY_HAND)
    } else {
        unchanged(constants::OUT_OF_RANGE, reading)
    }
}

// The end of the range that v + argument is past.
fn end_past(e: PlanEntry, v: u32, argument: u32) -> u32
    ensures { result ≡ end_past e v argument }
{
    let low = e.low as u64;
    let sum = v as u64 + argument as u64;
    if low + constants::HALF_U64 <= sum {
        e.high
    } else {
        e.low
    }
}

// v + argument, where it is in range; else the end that it is past, outcome 4.
fn step_valid(e: PlanEntry, argument: u32, reading: Reading) -> CommandResult
    ensures { result ≡ pick (sum_in_range e reading.value argument)
        (command_result carried_out (reading.value + argument - half) reading.quality)
        (past_end second e argument reading) }
{
    let v = reading.value;
    let quality = reading.quality;
    if sum_in_range(e, v, argument) {
        result_of(constants::CARRIED_OUT, sum(e, v, argument), quality)
    } else {
        result_of(constants::STOPPED, end_past(e, v, argument), quality)
    }
}

// What a step of a valid value gives is found before the quality is looked at: a choice, and no jump that a processor
// guesses.
fn step_rule(e: PlanEntry, argument: u32, reading: Reading) -> CommandResult
    ensures { result ≡ step_rule second e argument reading }
{
    let next = step_valid(e, argument, reading);
    let quality = reading.quality;
    if quality == constants::INVALID {
        unchanged(constants::ON_INVALID, reading)
    } else {
        next
    }
}

// A value in range is a measurement: valid.
fn report_rule(e: PlanEntry, argument: u32, reading: Reading) -> CommandResult
    ensures { result ≡ report_rule e argument reading }
{
    if format_numbers::in_range(e, argument) {
        result_of(constants::CARRIED_OUT, argument, constants::VALID)
    } else {
        result_of(constants::FELL_BACK, e.fallback, constants::INVALID)
    }
}

fn fault_rule(e: PlanEntry) -> CommandResult
    ensures { result ≡ fault_rule e }
{
    result_of(constants::FELL_BACK, e.fallback, constants::INVALID)
}

// 1 of an odd number, 0 of an even one.
fn last_bit(value: u64) -> u64
    ensures { result ≡ value % 2 }
{
    value & 1
}

// low + parts / 1000, the quotient to the nearest, an exact half to the even one. What is left of parts is found by a
// product, without a second division.
fn part_value(low: u32, parts: u64) -> u64
    ensures { result ≡ low + nearest parts whole_part }
{
    let from = low as u64;
    let quotient = parts / constants::WHOLE_PART_U64;
    let rest = parts - constants::WHOLE_PART_U64 * quotient;
    let down = from + quotient;
    let odd = last_bit(quotient);
    if constants::WHOLE_PART_U64 < 2 * rest + odd {
        down + 1
    } else {
        down
    }
}

// A part of the range is by hand.
fn part_rule(e: PlanEntry, argument: u32) -> CommandResult
    requires { argument_ok part_op argument ≡ true }
    ensures { result ≡ part_rule third e argument }
{
    let span = (e.high as u64).saturating_sub(e.low as u64);
    let parts = (argument as u64).saturating_sub(constants::HALF_U64);
    let value = part_value(e.low, span * parts);
    result_of(constants::CARRIED_OUT, value as u32, constants::BY_HAND)
}

// A command's result: outcome, and value and quality after it. An argument outside its op's range changes nothing,
// outcome 1; set, step and report take any. The tests are no guards of their arms: the last arm would then stand for a
// refused argument too, which is no plainer.
pub fn checked_rule(e: PlanEntry, op: u8, argument: u32, reading: Reading) -> CommandResult
    ensures { result ≡ checked_rule e op argument reading }
{
    match op {
        constants::READ_OP => {
            if format_numbers::argument_ok(constants::READ_OP, argument) {
                unchanged(constants::CARRIED_OUT, reading)
            } else {
                unchanged(constants::OUT_OF_RANGE, reading)
            }
        }
        constants::SET_OP => set_rule(e, argument, reading),
        constants::STEP_OP => step_rule(e, argument, reading),
        constants::REPORT_OP => report_rule(e, argument, reading),
        constants::FAULT_OP => {
            if format_numbers::argument_ok(constants::FAULT_OP, argument) {
                fault_rule(e)
            } else {
                unchanged(constants::OUT_OF_RANGE, reading)
            }
        }
        constants::PART_OP => {
            if format_numbers::argument_ok(constants::PART_OP, argument) {
                part_rule(e, argument)
            } else {
                unchanged(constants::OUT_OF_RANGE, reading)
            }
        }
        6..=255 => unchanged(constants::OUT_OF_RANGE, reading),
    }
}
