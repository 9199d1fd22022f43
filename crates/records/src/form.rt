// What the forms of record share: fields read from bytes, written to them, and tested. What goes from bytes to fields and back is inlined, since a call
// would hand the fields over in memory.
ghost use Rattle.std.specs.Prelude.{◌≡◌, ℕ, List, true, length};
ghost use Rattle.records.specs.Form.{Form as FormOf, stands, read_values, read_fields, wrote_values, written_values};
ghost use Rattle.records.specs.Inner.Lawful.{Held};

use refusals::Refusal;

// A form of record with N fields, of the events that it holds.
pub(crate) trait Form<const N: usize>: Copy {
    ghost BYTES: { ℕ };

    ghost WIDTHS: { List ℕ };

    ghost form: { FormOf Self };

    // How many bytes a record has.
    const BYTES: usize;

    // The widths of the fields.
    const WIDTHS: [u64; N];

    // The event that the values of the fields stand for, by their kind.
    fn of_values(v: &[u64; N]) -> Self
        ensures { result ≡ form.event v.now };

    // Whether values of fields are an event's.
    fn are_values(v: &[u64; N]) -> bool
        ensures { result ≡ stands form v.now };
}

// The event that values of fields stand for, which must be just those of a valid event.
#[tactic(auto, unfolding(crate::specs::Form::read_values))]
pub(crate) fn event_in<const N: usize, E: Form<N>>(v: &[u64; N]) -> Result<E, Refusal>
    ensures { result ≡ read_values E.form v.now }
{
    if E::are_values(v) {
        Ok(E::of_values(v))
    } else {
        Err(Refusal::FaultyRecord)
    }
}

// The fields of a record: bytes of the form's number whose fields are an event's.
#[tactic(auto, unfolding(crate::specs::Form::read_fields, crate::specs::Form::accepts))]
#[inline(always)]
pub(crate) fn fields<const N: usize, E: Form<N>>(s: &[u8]) -> Result<[u64; N], Refusal>
    requires held { Held E.form E.BYTES E.WIDTHS }
    ensures { result ≡ read_fields E.form s.now }
{
    if s.len() != E::BYTES {
        return Err(Refusal::FaultyRecord);
    }
    let mut v = [0u64; N];
    bits::read_fields(s, &E::WIDTHS, &mut v);
    if !E::are_values(&v) {
        return Err(Refusal::FaultyRecord);
    }
    Ok(v)
}

// Writes the record of fields that are an event's to the front of a room, or nothing where the room is short.
#[tactic(auto, unfolding(crate::specs::Form::wrote_values, crate::specs::Form::written_values))]
#[inline(always)]
pub(crate) fn put<const N: usize, E: Form<N>>(v: &[u64; N], room: &mut [u8]) -> Result<(), Refusal>
    requires held { Held E.form E.BYTES E.WIDTHS }
    requires stands { stands E.form v.now ≡ true }
    ensures value { result ≡ wrote_values E.form v.now (length room.old) }
    ensures room_after { room.new ≡ written_values E.form v.now room.old }
{
    if room.len() < E::BYTES {
        return Err(Refusal::NoRoom);
    }
    bits::write_fields(v, &E::WIDTHS, E::BYTES, room);
    Ok(())
}

// Writes the record of the event that values of fields stand for to the front of a room. A refusal writes nothing.
#[tactic(auto, unfolding(crate::specs::Form::wrote_values, crate::specs::Form::written_values))]
#[inline(always)]
pub(crate) fn write_values<const N: usize, E: Form<N>>(
    v: &[u64; N],
    room: &mut [u8],
) -> Result<(), Refusal>
    requires held { Held E.form E.BYTES E.WIDTHS }
    ensures value { result ≡ wrote_values E.form v.now (length room.old) }
    ensures room_after { room.new ≡ written_values E.form v.now room.old }
{
    if !E::are_values(v) {
        return Err(Refusal::FaultyRecord);
    }
    put::<N, E>(v, room)
}
