// Event records of 12 and of 16 bytes: read, written, and moved from one form to the other.
ghost use Rattle.std.specs.Prelude.{◌≡◌, length};
ghost use Rattle.records.specs.Form.{wrote_values, written_values};
ghost use Rattle.records.specs.Event.{form, read_of};
ghost use Rattle.records.specs.Event16.{form16, read16_of};
ghost use Rattle.records.specs.Rows.{event_row, event16_row};
ghost use Rattle.records.specs.Moves.{moving_of, moved, widening, narrowing};
ghost use Rattle.capi.specs.Rows.{event_fields, fields16_of, refusal_row};

use refusals::Refusal;

// Reads an event record: refusal, kind, time, root, unit, premium, contracts, reset, level.
pub fn mbrumzheg_read_record(s: &[u8], row: &mut [u64; 9])
    ensures { row.new ≡ event_row (read_of s.now) }
{
    records::read_numbers(s, row)
}

// Reads an event record of 16 bytes: refusal, kind, time in microseconds, root, unit, premium, contracts, reset, level, identity, reports, and two
// that are 0.
pub fn mbrumzheg_read_record16(s: &[u8], row: &mut [u64; 13])
    ensures { row.new ≡ event16_row (read16_of s.now) }
{
    records::read16_numbers(s, row)
}

// Writes the row of what answers a refusal or nothing.
#[tactic(auto, unfolding(crate::specs::Rows::refusal_row))]
fn put_refusal(answer: Result<(), Refusal>, row: &mut [u64; 5])
    ensures { row.new ≡ refusal_row answer }
{
    match answer {
        Ok(()) => rows::put_row(row, 0, 0, 0, 0, 0),
        Err(refusal) => rows::put_row(row, refusal.number(), 0, 0, 0, 0),
    }
}

// Writes the record of an event, given by its numbers, to the front of a room: refusal.
pub fn mbrumzheg_write_record(
    kind: u64,
    time: u64,
    root: u64,
    unit: u64,
    premium: u64,
    contracts: u64,
    reset: u64,
    level: u64,
    room: &mut [u8],
    row: &mut [u64; 5],
)
    ensures room_after { room.new ≡ written_values form (event_fields kind time root unit premium contracts reset level) room.old }
    ensures row_after { row.new ≡ refusal_row (wrote_values form (event_fields kind time root unit premium contracts reset level) (length room.old)) }
{
    let v = [kind, time, root, unit, premium, contracts, reset, level, 0];
    let writing = records::write_values(v, room);
    put_refusal(writing, row)
}

// Writes the 16-byte record of an event, given by its numbers, to the front of a room: refusal.
pub fn mbrumzheg_write_record16(
    kind: u64,
    time: u64,
    root: u64,
    unit: u64,
    premium: u64,
    contracts: u64,
    reset: u64,
    level: u64,
    identity: u64,
    reports: u64,
    room: &mut [u8],
    row: &mut [u64; 5],
)
    ensures room_after { room.new ≡ written_values form16 (fields16_of kind time root unit premium contracts reset level identity reports) room.old }
    ensures row_after { row.new ≡ refusal_row (wrote_values form16 (fields16_of kind time root unit premium contracts reset level identity reports) (length room.old)) }
{
    let v = [
        kind, time, root, unit, premium, contracts, reset, level, identity, reports, 0,
    ];
    let writing = records::write16_values(v, room);
    put_refusal(writing, row)
}

// Moves a record of 12 bytes to the front of a room, as one of 16: refusal.
pub fn mbrumzheg_widen(s: &[u8], room: &mut [u8], row: &mut [u64; 5])
    ensures room_after { room.new ≡ moved widening s.now room.old }
    ensures row_after { row.new ≡ refusal_row (moving_of widening s.now (length room.old)) }
{
    let moving = records::widen(s, room);
    put_refusal(moving, row)
}

// Moves a record of 16 bytes to the front of a room, as one of 12: refusal.
pub fn mbrumzheg_narrow(s: &[u8], room: &mut [u8], row: &mut [u64; 5])
    ensures room_after { room.new ≡ moved narrowing s.now room.old }
    ensures row_after { row.new ≡ refusal_row (moving_of narrowing s.now (length room.old)) }
{
    let moving = records::narrow(s, room);
    put_refusal(moving, row)
}
