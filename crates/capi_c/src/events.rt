// The exports on event records of 12 and of 16 bytes.
ghost use Rattle.std.specs.Prelude.{◌≡◌, length};
ghost use Rattle.records.specs.Form.{wrote_values, written_values};
ghost use Rattle.records.specs.Event.{form, read_of};
ghost use Rattle.records.specs.Event16.{form16, read16_of};
ghost use Rattle.records.specs.Rows.{event_row, event16_row};
ghost use Rattle.records.specs.Moves.{moving_of, moved, widening, narrowing};
ghost use Rattle.capi.specs.Rows.{event_fields, fields16_of, refusal_row};

// Reads an event record: refusal, kind, time, root, unit, premium, contracts, reset, level.
#[unsafe(no_mangle)]
pub extern "C" fn mbrumzheg_read_record(s: &[u8], row: &mut [u64; 9])
    ensures { row.new ≡ event_row (read_of s.now) }
{
    capi::events::mbrumzheg_read_record(s, row)
}

// Reads an event record of 16 bytes: refusal, kind, time in microseconds, root, unit, premium, contracts, reset, level, identity, reports, and two
// that are 0.
#[unsafe(no_mangle)]
pub extern "C" fn mbrumzheg_read_record16(s: &[u8], row: &mut [u64; 13])
    ensures { row.new ≡ event16_row (read16_of s.now) }
{
    capi::events::mbrumzheg_read_record16(s, row)
}

// Writes the record of an event, given by its numbers, to the front of a room: refusal.
#[unsafe(no_mangle)]
pub extern "C" fn mbrumzheg_write_record(
    kind: u64,
    time: u64,
    root: u64,
    unit: u64,
    premium: u64,
    contracts: u64,
    reset: u64,
    level: u64,
    room: &mut [u8],
    row: &mut [u64; 5],
)
    ensures room_after { room.new ≡ written_values form (event_fields kind time root unit premium contracts reset level) room.old }
    ensures row_after { row.new ≡ refusal_row (wrote_values form (event_fields kind time root unit premium contracts reset level) (length room.old)) }
{
    capi::events::mbrumzheg_write_record(
        kind, time, root, unit, premium, contracts, reset, level, room, row,
    )
}

// Writes the 16-byte record of an event, given by its numbers, to the front of a room: refusal.
#[unsafe(no_mangle)]
pub extern "C" fn mbrumzheg_write_record16(
    kind: u64,
    time: u64,
    root: u64,
    unit: u64,
    premium: u64,
    contracts: u64,
    reset: u64,
    level: u64,
    identity: u64,
    reports: u64,
    room: &mut [u8],
    row: &mut [u64; 5],
)
    ensures room_after { room.new ≡ written_values form16 (fields16_of kind time root unit premium contracts reset level identity reports) room.old }
    ensures row_after { row.new ≡ refusal_row (wrote_values form16 (fields16_of kind time root unit premium contracts reset level identity reports) (length room.old)) }
{
    capi::events::mbrumzheg_write_record16(
        kind, time, root, unit, premium, contracts, reset, level, identity, reports, room, row,
    )
}

// Moves a record of 12 bytes to the front of a room, as one of 16: refusal.
#[unsafe(no_mangle)]
pub extern "C" fn mbrumzheg_widen(s: &[u8], room: &mut [u8], row: &mut [u64; 5])
    ensures room_after { room.new ≡ moved widening s.now room.old }
    ensures row_after { row.new ≡ refusal_row (moving_of widening s.now (length room.old)) }
{
    capi::events::mbrumzheg_widen(s, room, row)
}

// Moves a record of 16 bytes to the front of a room, as one of 12: refusal.
#[unsafe(no_mangle)]
pub extern "C" fn mbrumzheg_narrow(s: &[u8], room: &mut [u8], row: &mut [u64; 5])
    ensures room_after { room.new ≡ moved narrowing s.now room.old }
    ensures row_after { row.new ≡ refusal_row (moving_of narrowing s.now (length room.old)) }
{
    capi::events::mbrumzheg_narrow(s, room, row)
}
