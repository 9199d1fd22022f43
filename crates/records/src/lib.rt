// Event records of 12 and of 16 bytes: an event from its record, the record of an event, and a record moved to the other form.
#![tactic(auto)]

ghost use Rattle.std.specs.Prelude.{◌≡◌, length};
ghost use Rattle.records.specs.Form.{written, wrote_values, written_values};
ghost use Rattle.records.specs.Event.{bytes12, widths, values_of, is_valid, form, event_in, read_of, wrote_of};
ghost use Rattle.records.specs.Rows.{event_row};

mod form;
mod moves;
mod ranges;
mod sixteen;

use form::Form;
pub use moves::{narrow, widen};
use refusals::Refusal;
pub use sixteen::{event16_in, read16, read16_numbers, values16_of, write16, write16_values};

// An event: each kind holds what it uses, and nothing else.
#[derive(Clone, Copy)]
pub enum Event {
    Order {
        time: u64,
        root: u64,
        reset: u64,
    },
    Offer {
        time: u64,
        root: u64,
        unit: u64,
        premium: u64,
        contracts: u64,
    },
    Lockout {
        time: u64,
        level: u64,
        root: u64,
    },
}

// Two enums, as specs/Event and specs/Event16 promise which kinds each form holds.
// An event of a 16-byte record: its time is in microseconds, resets go up to 6, and orders may be sent away.
#[derive(Clone, Copy)]
pub enum Event16 {
    Order {
        time: u64,
        root: u64,
        reset: u64,
    },
    Offer {
        time: u64,
        root: u64,
        unit: u64,
        premium: u64,
        contracts: u64,
    },
    Lockout {
        time: u64,
        level: u64,
        root: u64,
    },
    Sending {
        time: u64,
        root: u64,
        unit: u64,
        premium: u64,
        contracts: u64,
        identity: u64,
        reports: u64,
    },
    Report {
        time: u64,
        identity: u64,
        contracts: u64,
    },
    Closing {
        time: u64,
        identity: u64,
    },
}

// How many bytes a record has: in the old form, and in the form of 16 bytes.
pub const BYTES: usize = 12;

pub const BYTES16: usize = 16;

impl Form<9> for Event {
    ghost BYTES = { bytes12 };

    ghost WIDTHS = { widths };

    ghost form = { form };

    const BYTES: usize = BYTES;

    // Kind, time, root, unit, premium, contracts, reset, level, spare.
    const WIDTHS: [u64; 9] = [2, 27, 6, 2, 27, 20, 2, 1, 9];

    #[tactic(auto, unfolding(crate::specs::Event::event_of))]
    fn of_values(v: &[u64; 9]) -> Event {
        let [kind, time, root, unit, premium, contracts, reset, level, _] = *v;
        // A record holds its kind as a number, as specs/Event `event_of` says.
        match kind {
            0 => Event::Order { time, root, reset },
            1 => Event::Offer {
                time,
                root,
                unit,
                premium,
                contracts,
            },
            _ => Event::Lockout { time, level, root },
        }
    }

    fn are_values(v: &[u64; 9]) -> bool {
        ranges::is_event(v)
    }
}

// The values of an event's fields.
#[tactic(auto, unfolding(crate::specs::Event::values_of))]
pub fn values_of(e: Event) -> [u64; 9]
    ensures { result ≡ values_of e }
{
    match e {
        Event::Order { time, root, reset } => [0, time, root, 0, 0, 0, reset, 0, 0],
        Event::Offer {
            time,
            root,
            unit,
            premium,
            contracts,
        } => [1, time, root, unit, premium, contracts, 0, 0, 0],
        Event::Lockout { time, level, root } => [2, time, root, 0, 0, 0, 0, level, 0],
    }
}

// Whether every number of an event is in its range, and a lockout of the firm names root 0.
pub fn is_valid(e: Event) -> bool
    ensures { result ≡ is_valid e }
{
    Event::are_values(&values_of(e))
}

// The event that the values of the fields stand for: they are just those of a valid event.
#[tactic(auto, unfolding(crate::specs::Event::event_in, crate::specs::Form::read_values))]
pub fn event_in(v: &[u64; 9]) -> Result<Event, Refusal>
    ensures { result ≡ event_in v.now }
{
    form::event_in(v)
}

// The event of a record: 12 bytes whose fields are the values of a valid event.
#[tactic(auto, unfolding(crate::specs::Event::read_of, crate::specs::Form::read_fields, crate::specs::Form::event_at), using(crate::proofs::Forms::held))]
pub fn read(s: &[u8]) -> Result<Event, Refusal>
    ensures { result ≡ read_of s.now }
{
    let v = form::fields::<9, Event>(s)?;
    Ok(Event::of_values(&v))
}

// Reads a record's numbers: refusal, kind, time, root, unit, premium, contracts, reset, level.
#[tactic(auto, using(crate::proofs::Forms::held))]
pub fn read_numbers(s: &[u8], row: &mut [u64; 9])
    ensures { row.new ≡ event_row (read_of s.now) }
{
    // The rows of the two forms have 9 and 13 numbers for C: `mbrumzheg_read_record`, `mbrumzheg_read_record16`.
    *row = match form::fields::<9, Event>(s) {
        Ok(v) => [0, v[0], v[1], v[2], v[3], v[4], v[5], v[6], v[7]],
        Err(refusal) => [refusal.number(), 0, 0, 0, 0, 0, 0, 0, 0],
    };
}

// Writes the record of the event that the values of the fields stand for to the first 12 bytes of the room. A refusal writes nothing.
#[tactic(auto, using(crate::proofs::Forms::held))]
pub fn write_values(v: [u64; 9], room: &mut [u8]) -> Result<(), Refusal>
    ensures value { result ≡ wrote_values form v (length room.old) }
    ensures room_after { room.new ≡ written_values form v room.old }
{
    form::write_values::<9, Event>(&v, room)
}

// Writes the record of a valid event to the first 12 bytes of the room. A refusal writes nothing.
pub fn write(e: Event, room: &mut [u8]) -> Result<(), Refusal>
    ensures value { result ≡ wrote_of e (length room.old) }
    ensures room_after { room.new ≡ written form e room.old }
{
    write_values(values_of(e), room)
}
