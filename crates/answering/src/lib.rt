// The program's lines: what arming and each event record of an input print, and the memory that they leave.
#![tactic(auto)]

ghost use Rattle.std.specs.Prelude.{◌≡◌, ◌+◌, ◌*◌, ◌≤◌, ◌<◌, length};
ghost use Rattle.std.proofs.lemmas.List.Edits.{sets};
ghost use Rattle.machine.specs.Answer.{answer_told};
ghost use Rattle.calls.specs.Calls.{arm_answer, arm_memory, call_answer, call_memory};
ghost use Rattle.std.specs.declared.result.Result.TheVariants.{Ok, Err};
ghost use Rattle.profile.specs.Reading.{reading_told};
ghost use Rattle.records.specs.Event16.{bytes16};
ghost use Rattle.answering.specs.Lines.{spaced, arm_line, record_line};
ghost use Rattle.answering.specs.Run.{Line, FitsRoom, Fitted, in_front, opened_of, milliseconds as milliseconds_of, offer_said as offered_of, record_call, record_answer, record_memory, fitting as fitting_of, taken, memory_after, lines_of, ran_of};

use machine::{Accepted, Offer};
use profile::{Armed, Fault};
use records::Event16;
use refusals::Refusal;

// How many numbers the memory takes that a program lends.
pub const SIZE: usize = calls::SIZE;

// How many bytes a record of an input has.
pub const RECORD_BYTES: usize = records::BYTES16;

// Whether the unit is armed, and how many bytes the line about it has.
#[derive(Clone, Copy)]
pub struct Opened {
    pub armed: bool,
    pub bytes: usize,
}

// How many records were answered, and how many bytes their lines have.
#[derive(Clone, Copy)]
pub struct Ran {
    pub records: u64,
    pub bytes: usize,
}

// Writes numbers from a place on, a space before each and LF at the end, and answers the place after it.
pub fn put_spaced(numbers: &[u64], room: &mut [u8], at: usize) -> usize
    requires { at + length numbers.now * 21 + 1 ≤ length room.old }
    ensures value { result ≡ at + length (spaced numbers.now) }
    ensures room_after { room.new ≡ sets room.old at (spaced numbers.now) }
    ensures upper_bound { result ≤ at + length numbers.now * 21 + 1 }
{
    let mut to = at;
    for n in numbers {
        room[to] = b' ';
        to = text::put_decimal(*n, room, to + 1);
    }
    room[to] = b'\n';
    to + 1
}

// Writes the line of an armed unit to the front of a room, and answers how many bytes it has.
fn put_armed(armed: Armed, room: &mut [u8]) -> usize
    requires { 126 ≤ length room.old }
    ensures fits_room { FitsRoom result 126 }
    ensures value { result ≡ length (arm_line (reading_told (Ok armed))) }
    ensures room_after { room.new ≡ sets room.old 0 (arm_line (reading_told (Ok armed))) }
{
    let name = text::put_words(b"armed ", room, 0);
    let numbers = text::put_name(armed.firm, room, name);
    put_spaced(&[armed.rules, armed.roots], room, numbers)
}

// Writes the line of a refused profile to the front of a room, and answers how many bytes it has.
fn put_refused(fault: Fault, room: &mut [u8]) -> usize
    requires { 126 ≤ length room.old }
    ensures fits_room { FitsRoom result 126 }
    ensures value { result ≡ length (arm_line (reading_told (Err fault))) }
    ensures room_after { room.new ≡ sets room.old 0 (arm_line (reading_told (Err fault))) }
{
    let numbers = text::put_words(b"refused", room, 0);
    put_spaced(&[fault.refusal.number(), fault.line], room, numbers)
}

// Arms memory from a profile's text, and writes the line about it to the front of a room.
pub fn arm(m: &mut [u64], profile: &[u8], room: &mut [u8; 126]) -> Opened
    ensures fits_room { FitsRoom result.bytes (length room.new) }
    ensures value { result ≡ opened_of (arm_answer m.old profile.now) }
    ensures m_after { m.new ≡ arm_memory m.old profile.now }
    ensures room_after { room.new ≡ in_front (arm_line (arm_answer m.old profile.now)) room.old }
{
    let arming = calls::arm(m, profile);
    match arming {
        Ok(armed) => {
            let bytes = put_armed(armed, room);
            Opened { armed: true, bytes }
        }
        Err(fault) => {
            let bytes = put_refused(fault, room);
            Opened {
                armed: false,
                bytes,
            }
        }
    }
}

// Writes the line of an answer from a place on, and answers the place after it.
fn put_line(place: u64, answer: Result<Accepted, Refusal>, room: &mut [u8], at: usize) -> usize
    requires { at + 126 ≤ length room.old }
    ensures line { Line result at (length room.old) }
    ensures value { result ≡ at + length (record_line place (answer_told answer)) }
    ensures room_after { room.new ≡ sets room.old at (record_line place (answer_told answer)) }
{
    let mut row = [0u64; 5];
    rows::put_answer(answer.map_err(Refusal::number), &mut row);
    let next = text::put_decimal(place, room, at);
    put_spaced(&row, room, next)
}

// Microseconds in whole milliseconds: the remainder is dropped.
pub fn milliseconds(time: u64) -> u64
    ensures { result ≡ milliseconds_of time }
{
    time / 1000
}

// An offer, or an order to be sent away, at a time in microseconds.
pub fn offered(time: u64, root: u64, unit: u64, premium: u64, contracts: u64) -> Offer
    ensures { result ≡ offered_of time root unit premium contracts }
{
    Offer {
        time: milliseconds(time),
        root,
        unit,
        premium,
        contracts,
    }
}

// Answers an event in memory: the rules count in whole milliseconds.
fn answer_event(m: &mut [u64], e: Event16) -> Result<Accepted, Refusal>
    ensures value { answer_told result ≡ call_answer m.old (record_call e) }
    ensures m_after { m.new ≡ call_memory m.old (record_call e) }
{
    match e {
        Event16::Order { time, root, reset } => calls::order(m, milliseconds(time), root, reset),
        Event16::Offer {
            time,
            root,
            unit,
            premium,
            contracts,
        } => calls::offer(m, offered(time, root, unit, premium, contracts)),
        Event16::Lockout { time, level, root } => {
            calls::lockout(m, milliseconds(time), level, root)
        }
        Event16::Sending {
            time,
            root,
            unit,
            premium,
            contracts,
            identity,
            reports,
        } => {
            let o = offered(time, root, unit, premium, contracts);
            calls::send(m, o, identity, reports)
        }
        Event16::Report {
            time,
            identity,
            contracts,
        } => calls::report(m, milliseconds(time), identity, contracts),
        Event16::Closing { time, identity } => calls::close(m, milliseconds(time), identity),
    }
}

// Answers a record in memory: what its event's call answers, or 16.
#[tactic(auto, unfolding(crate::specs::Run::reading_answer, crate::specs::Run::memory_of))]
pub fn answer_record(m: &mut [u64], s: &[u8]) -> Result<Accepted, Refusal>
    ensures value { answer_told result ≡ record_answer m.old s.now }
    ensures m_after { m.new ≡ record_memory m.old s.now }
{
    match records::read16(s) {
        Ok(e) => answer_event(m, e),
        Err(refusal) => Err(refusal),
    }
}

// How many records of so many bytes surely find room, from a place on.
#[tactic(auto, unfolding(crate::specs::Run::fitting, crate::specs::Run::record_count))]
fn fitting(place: u64, bytes: usize, room: usize) -> usize
    ensures { result ≡ fitting_of place bytes room }
{
    let lines = bytes.div_ceil(RECORD_BYTES).min(room / 126);
    lines.min((u64::MAX - place) as usize)
}

// Answers the records of a piece of input, the first at a place, and writes their lines to the front of a room: as many as surely find room.
pub fn run(m: &mut [u64], place: u64, s: &[u8], room: &mut [u8]) -> Ran
    ensures fitted { Fitted place result (length room.old) }
    ensures value { result ≡ ran_of place m.old s.now (length room.old) }
    ensures m_after { m.new ≡ memory_after m.old (taken place s.now (length room.old)) }
    ensures room_after { room.new ≡ in_front (lines_of place m.old (taken place s.now (length room.old))) room.old }
{
    let count = fitting(place, s.len(), room.len());
    let mut next = place;
    let mut to = 0;
    for record in s.chunks(RECORD_BYTES).take(count) {
        to = put_line(next, answer_record(m, record), room, to);
        next += 1;
    }
    Ran {
        records: count as u64,
        bytes: to,
    }
}
