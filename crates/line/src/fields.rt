// The fields of a line, read one after the other: the four that it must have, and the four that it may have.
ghost use Rattle.std.specs.Prelude.{◌≡◌, true, false, cond, [], get_or, drop, eqb, is_some, MatchOption};
ghost use Rattle.line.specs.Line.{malformed, time_of, letter_of};
ghost use Rattle.line.specs.Inner.Parts.{chosen, Says};

use crate::LimitType;
use text::{Fields, is_field};

// Calls or puts.
#[derive(Clone, Copy)]
pub(crate) enum Side {
    Call,
    Put,
}

// The front month, or those that trail it.
#[derive(Clone, Copy)]
pub(crate) enum Month {
    Front,
    Trailing,
}

// What the fields of a line say that is well formed: a root is 0 where there is none.
#[derive(Clone, Copy)]
pub(crate) struct Said {
    pub(crate) firm: u64,
    pub(crate) named: LimitType,
    pub(crate) root: u64,
    pub(crate) limit: u64,
    pub(crate) time: u64,
    pub(crate) firmwide: bool,
    pub(crate) call: Option<Side>,
    pub(crate) month: Option<Month>,
}

// What the next field says that has one of two letters or none; nothing for anything else, and the field is then left.
#[tactic(auto, unfolding(crate::specs::Line::letter_of, text::specs::Text::index_of))]
fn letter<T: Copy>(fields: &mut Fields, one: (u8, T), two: (u8, T)) -> Option<Option<T>>
    requires { (eqb one.0 44 ≡ false) × (eqb two.0 44 ≡ false) }
    ensures value { result ≡ chosen one.1 two.1 (letter_of one.0 two.0 (get_or fields.old 0 [])) }
    ensures left { fields.new ≡ cond (is_some result) (drop 1 fields.old) fields.old }
{
    if fields.passes(b"") {
        return Some(None);
    }
    if fields.passes(&[one.0]) {
        return Some(Some(one.1));
    }
    if fields.passes(&[two.0]) {
        return Some(Some(two.1));
    }
    None
}

// The next field as a time limit: an absolute type ignores the field, and an empty one reads as 0.
#[tactic(auto, unfolding(crate::specs::Line::time_of), using(crate::proofs::Parts::time_digits))]
fn time(fields: &mut Fields, absolute: bool) -> Option<u64>
    ensures value { result ≡ time_of absolute (get_or fields.old 0 []) }
    ensures left { fields.new ≡ cond (is_some result) (drop 1 fields.old) fields.old }
{
    if absolute {
        fields.next_field();
        return Some(0);
    }
    fields.number(0)
}

// What a line's fields say: nothing where one of them is malformed, or there are too few or too many.
pub(crate) fn read(line: &[u8]) -> Option<Said>
    ensures { MatchOption result (malformed line.now ≡ true) (Says line.now) }
{
    let mut fields = Fields::of(line);
    let firm = fields.firm()?;
    let named = LimitType::named(&mut fields)?;
    let root = fields.root()?;
    let limit = fields.number(1)?;
    let time = time(&mut fields, named.is_absolute())?;
    let firmwide = is_field(fields.next_field(), b"T");
    let call = letter(&mut fields, (b'C', Side::Call), (b'P', Side::Put))?;
    let month = letter(&mut fields, (b'F', Month::Front), (b'T', Month::Trailing))?;
    if !fields.is_empty() {
        return None;
    }
    Some(Said {
        firm,
        named,
        root,
        limit,
        time,
        firmwide,
        call,
        month,
    })
}
