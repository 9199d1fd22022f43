// The day's table: each record of an input is applied and counted, and the rows of the account are written with the names of their roots.
#![tactic(auto)]

ghost use Rattle.std.specs.Prelude.{◌≡◌, ◌++◌, ◌+◌, ◌≤◌, length};
ghost use Rattle.std.proofs.lemmas.List.Edits.{sets};
ghost use Rattle.text.specs.Digits.{name_bytes};
ghost use Rattle.machine.specs.Answer.{answer_told};
ghost use Rattle.answering.specs.Lines.{spaced};
ghost use Rattle.state.specs.State.{decode};
ghost use Rattle.state.specs.Inner.Laid.{Laid};
ghost use Rattle.records.specs.Event16.{read16_of};
ghost use Rattle.answering.specs.Run.{record_call as call_of16, records_of};
ghost use Rattle.figures.specs.Account.{account_size, row_of};
ghost use Rattle.accounted.specs.Accounted.{call_of};
ghost use Rattle.tabled.specs.Tabled.{tabled_answer, tabled_memory, account_of, memory_taken, account_taken, root_lines, table_text};

use accounted::Event;
use machine::Accepted;
use records::Event16;
use refusals::Refusal;

// How many bytes a table has at most: 65 lines of at most 192.
pub const TABLE_BYTES: usize = 12_480;

// The event of a record, at its time in whole milliseconds.
fn event_of(e: Event16) -> Event
    ensures { call_of result ≡ call_of16 e }
{
    match e {
        Event16::Order { time, root, reset } => Event::Order {
            time: answering::milliseconds(time),
            root,
            reset,
        },
        Event16::Offer {
            time,
            root,
            unit,
            premium,
            contracts,
        } => Event::Offer(answering::offered(time, root, unit, premium, contracts)),
        Event16::Lockout { time, level, root } => Event::Lockout {
            time: answering::milliseconds(time),
            level,
            root,
        },
        Event16::Sending {
            time,
            root,
            unit,
            premium,
            contracts,
            identity,
            reports,
        } => Event::Send {
            order: answering::offered(time, root, unit, premium, contracts),
            identity,
            reports,
        },
        Event16::Report {
            time,
            identity,
            contracts,
        } => Event::Report {
            time: answering::milliseconds(time),
            identity,
            contracts,
        },
        Event16::Closing { time, identity } => Event::Close {
            time: answering::milliseconds(time),
            identity,
        },
    }
}

// Applies the event of a record and counts it; a record that is not one is refused with 16.
#[tactic(auto, unfolding(crate::specs::Tabled::tabled_answer, crate::specs::Tabled::tabled_memory, crate::specs::Tabled::account_of))]
pub fn take_record(m: &mut [u64], a: &mut [u64], s: &[u8]) -> Result<Accepted, Refusal>
    ensures value { answer_told result ≡ tabled_answer m.old a.old (read16_of s.now) }
    ensures m_after { m.new ≡ tabled_memory m.old a.old (read16_of s.now) }
    ensures a_after { a.new ≡ account_of m.old a.old (read16_of s.now) }
{
    match records::read16(s) {
        Ok(e) => accounted::apply(m, a, event_of(e)),
        Err(refusal) => Err(refusal),
    }
}

// Applies and counts the records of a piece of input, in their order.
pub fn run(m: &mut [u64], a: &mut [u64], s: &[u8])
    ensures m_after { m.new ≡ memory_taken m.old a.old (records_of s.now) }
    ensures a_after { a.new ≡ account_taken m.old a.old (records_of s.now) }
{
    for record in s.chunks(answering::RECORD_BYTES) {
        let _ = take_record(m, a, record);
    }
}

// Writes the line of a row from a place on, and answers the place after it.
fn put_row(name: u64, figures: &[u64], room: &mut [u8], at: usize) -> usize
    requires { (length figures.now ≡ 8) × (at + 192 ≤ length room.old) }
    ensures upper_bound { result ≤ at + 192 }
    ensures value { result ≡ at + length (name_bytes name ++ spaced figures.now) }
    ensures room_after { room.new ≡ sets room.old at (name_bytes name ++ spaced figures.now) }
{
    let next = text::put_name(name, room, at);
    answering::put_spaced(figures, room, next)
}

// Writes the lines of the roots to the front of a room, in the roots' order, and answers how many bytes they have.
fn put_roots(m: &[u64], a: &[u64], room: &mut [u8]) -> usize
    requires { Laid m.now × ((account_size ≤ length a.now) × (12_288 ≤ length room.old)) }
    ensures upper_bound { result ≤ 12_288 }
    ensures value { result ≡ length (root_lines (row_of a.now) 0 (decode m.now).part.profile.roots) }
    ensures room_after { room.new ≡ sets room.old 0 (root_lines (row_of a.now) 0 (decode m.now).part.profile.roots) }
{
    let roots = state::roots_in(m) as usize;
    let mut to = 0;
    for i in 0..roots {
        let row = i * figures::ROW;
        let end = row + figures::ROW;
        to = put_row(state::name_in(m, i), &a[row..end], room, to);
    }
    to
}

// Writes the table to the front of a room, a line for each root and then the firm's, and answers how many bytes it has.
pub fn put_table(m: &[u64], a: &[u64], room: &mut [u8; TABLE_BYTES]) -> usize
    ensures upper_bound { result ≤ 12_480 }
    ensures value { result ≡ length (table_text m.now a.now) }
    ensures room_after { room.new ≡ sets room.old 0 (table_text m.now a.now) }
{
    if a.len() < figures::SIZE {
        return 0;
    }
    match calls::memory_refusal(m) {
        Err(_) => 0,
        Ok(()) => {
            let to = put_roots(m, a, room);
            put_row(m[state::FIRM], &a[figures::FIRM..figures::SIZE], room, to)
        }
    }
}
