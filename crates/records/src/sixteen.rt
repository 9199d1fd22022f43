// Event records of 16 bytes: an event from its record, and the record of an event.
ghost use Rattle.std.specs.Prelude.{◌≡◌, length};
ghost use Rattle.records.specs.Form.{written, wrote_values, written_values};
ghost use Rattle.records.specs.Event16.{bytes16, widths16, values16_of, form16, event16_in, read16_of, wrote16_of};
ghost use Rattle.records.specs.Rows.{event16_row};

use crate::form::Form;
use crate::{BYTES16, Event16, form, ranges};
use refusals::Refusal;

impl Form<11> for Event16 {
    ghost BYTES = { bytes16 };

    ghost WIDTHS = { widths16 };

    ghost form = { form16 };

    const BYTES: usize = BYTES16;

    // Kind, time, root, unit, premium, contracts, reset, level, identity, reports, spare.
    const WIDTHS: [u64; 11] = [4, 37, 6, 2, 27, 20, 4, 1, 16, 5, 6];

    #[tactic(auto, unfolding(crate::specs::Event16::event16_of, crate::specs::Event16::away_event_of))]
    fn of_values(v: &[u64; 11]) -> Event16 {
        let [
            kind,
            time,
            root,
            unit,
            premium,
            contracts,
            reset,
            level,
            identity,
            reports,
            _,
        ] = *v;
        // A record holds its kind as a number, as specs/Event16 `event16_of` says.
        match kind {
            0 => Event16::Order { time, root, reset },
            1 => Event16::Offer {
                time,
                root,
                unit,
                premium,
                contracts,
            },
            2 => Event16::Lockout { time, level, root },
            3 => Event16::Sending {
                time,
                root,
                unit,
                premium,
                contracts,
                identity,
                reports,
            },
            4 => Event16::Report {
                time,
                identity,
                contracts,
            },
            _ => Event16::Closing { time, identity },
        }
    }

    fn are_values(v: &[u64; 11]) -> bool {
        ranges::is_event16(v)
    }
}

// The values of an event's fields.
#[tactic(auto, unfolding(crate::specs::Event16::values16_of))]
pub fn values16_of(e: Event16) -> [u64; 11]
    ensures { result ≡ values16_of e }
{
    match e {
        Event16::Order { time, root, reset } => [0, time, root, 0, 0, 0, reset, 0, 0, 0, 0],
        Event16::Offer {
            time,
            root,
            unit,
            premium,
            contracts,
        } => [1, time, root, unit, premium, contracts, 0, 0, 0, 0, 0],
        Event16::Lockout { time, level, root } => [2, time, root, 0, 0, 0, 0, level, 0, 0, 0],
        Event16::Sending {
            time,
            root,
            unit,
            premium,
            contracts,
            identity,
            reports,
        } => [
            3, time, root, unit, premium, contracts, 0, 0, identity, reports, 0,
        ],
        Event16::Report {
            time,
            identity,
            contracts,
        } => [4, time, 0, 0, 0, contracts, 0, 0, identity, 0, 0],
        Event16::Closing { time, identity } => [5, time, 0, 0, 0, 0, 0, 0, identity, 0, 0],
    }
}

// The event that the values of the fields stand for: they are just those of a valid event.
#[tactic(auto, unfolding(crate::specs::Event16::event16_in, crate::specs::Form::read_values))]
pub fn event16_in(v: &[u64; 11]) -> Result<Event16, Refusal>
    ensures { result ≡ event16_in v.now }
{
    form::event_in(v)
}

// The event of a record: 16 bytes whose fields are the values of a valid event.
#[tactic(auto, unfolding(crate::specs::Event16::read16_of, crate::specs::Form::read_fields, crate::specs::Form::event_at), using(crate::proofs::Forms::held16))]
pub fn read16(s: &[u8]) -> Result<Event16, Refusal>
    ensures { result ≡ read16_of s.now }
{
    let v = form::fields::<11, Event16>(s)?;
    Ok(Event16::of_values(&v))
}

// Reads a record's numbers: refusal, kind, time, root, unit, premium, contracts, reset, level, identity, reports, and two that are 0.
#[tactic(auto, using(crate::proofs::Forms::held16))]
pub fn read16_numbers(s: &[u8], row: &mut [u64; 13])
    ensures { row.new ≡ event16_row (read16_of s.now) }
{
    *row = match form::fields::<11, Event16>(s) {
        Ok(v) => [
            0, v[0], v[1], v[2], v[3], v[4], v[5], v[6], v[7], v[8], v[9], 0, 0,
        ],
        Err(refusal) => [refusal.number(), 0, 0, 0, 0, 0, 0, 0, 0, 0, 0, 0, 0],
    };
}

// Writes the record of the event that the values of the fields stand for to the first 16 bytes of the room. A refusal writes nothing.
#[tactic(auto, using(crate::proofs::Forms::held16))]
pub fn write16_values(v: [u64; 11], room: &mut [u8]) -> Result<(), Refusal>
    ensures value { result ≡ wrote_values form16 v (length room.old) }
    ensures room_after { room.new ≡ written_values form16 v room.old }
{
    form::write_values::<11, Event16>(&v, room)
}

// Writes the record of a valid event to the first 16 bytes of the room. A refusal writes nothing.
pub fn write16(e: Event16, room: &mut [u8]) -> Result<(), Refusal>
    ensures value { result ≡ wrote16_of e (length room.old) }
    ensures room_after { room.new ≡ written form16 e room.old }
{
    write16_values(values16_of(e), room)
}
