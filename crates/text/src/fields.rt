// The fields of a line, read one after the other. The loop that reads a number or a name finds its end, so that each of its bytes is looked at once.
// A word is compared where it stands. Any other field is cut off at its comma first, and then compared.
ghost use Rattle.std.specs.Prelude.{◌≡◌, ℕ, List, [], ◌+◌, ◌^◌, ◌≤◌, ◌<◌, cond, is_some, is_none, length, get_or, drop, eqb, MatchOption};
ghost use Rattle.laws.specs.Lists.{same};
ghost use Rattle.text.specs.Text.{fields, index_of, is_digit, name_of};
ghost use Rattle.text.specs.Inner.Taking.{fields_in, read_as, AreDigits};

use crate::digits::{Decimal, Digits, Letters, front};
use crate::place_of;
use std::marker::Model;

// The fields of a line that are still to be read. One that is absent reads as empty.
#[derive(Drop)]
pub struct Fields<'a> {
    // The bytes that are left, nothing after the last field.
    left: Option<&'a [u8]>,
}

impl<'a> Model for Fields<'a> {
    ghost Value = { List (List ℕ) };

    ghost view = { λ f. fields_in f.left };
}

// What is left of a line behind a field, by the bytes that stand there: nothing if there are none. `None` if a comma is not the first of them.
fn behind(more: &[u8]) -> Option<Option<&[u8]>>
    ensures { MatchOption result (0 < index_of 44 more.now) (λ left. (0 ≡ index_of 44 more.now) × (fields_in left ≡ drop 1 (fields more.now))) }
{
    let Some((first, others)) = more.split_first() else {
        return Some(None);
    };
    if *first != b',' {
        return None;
    }
    Some(Some(others))
}

// True if two words of one length are the same. The loop has no early exit, so that all bytes are compared at once.
#[inline(always)]
fn is_same(one: &[u8], other: &[u8]) -> bool
    requires { length one.now ≡ length other.now }
    ensures { result ≡ same one.now other.now }
{
    let mut alike = true;
    for (x, y) in one.iter().zip(other) {
        alike &= *x == *y;
    }
    alike
}

impl<'a> Fields<'a> {
    // The fields of a line, of which an empty one has one.
    pub fn of(line: &'a [u8]) -> Fields<'a>
        ensures { result ≡ fields line.now }
    {
        Fields { left: Some(line) }
    }

    // Whether no field is left.
    pub fn is_empty(&self) -> bool
        ensures { result ≡ eqb (length self.now) 0 }
    {
        self.left.is_none()
    }

    // The bytes whose first field is the next one.
    fn rest(&self) -> &'a [u8]
        ensures first { get_or self.now 0 [] ≡ get_or (fields result.now) 0 [] }
        ensures others { drop 1 self.now ≡ drop 1 (fields result.now) }
    {
        self.left.unwrap_or(&[])
    }

    // The next field. It is inlined, since a call costs as much as the search for a short field's end.
    #[inline(always)]
    pub fn next_field(&mut self) -> &'a [u8]
        ensures value { result.now ≡ get_or self.old 0 [] }
        ensures left { self.new ≡ drop 1 self.old }
    {
        let rest = self.rest();
        let Some(end) = place_of(rest, b',') else {
            self.left = None;
            return rest;
        };
        self.left = Some(&rest[end + 1..]);
        &rest[..end]
    }

    // True if the next field holds a word, which has no comma. The field is then passed; nothing searches for its end.
    // Its end is looked at first, since most fields are of another length. It is inlined, so that a known word is compared at once.
    #[inline(always)]
    pub fn passes(&mut self, word: &[u8]) -> bool
        requires { index_of 44 word.now ≡ length word.now }
        ensures value { result ≡ same (get_or self.old 0 []) word.now }
        ensures left { self.new ≡ cond result (drop 1 self.old) self.old }
    {
        let Some((front, more)) = self.rest().split_at_checked(word.len()) else {
            return false;
        };
        let Some(left) = behind(more) else {
            return false;
        };
        if !is_same(front, word) {
            return false;
        }
        self.left = left;
        true
    }

    // The next field as the number of least to most digits, or nothing, and all fields are left.
    fn numeral<D: Digits>(&mut self, least: usize, most: usize) -> Option<u64>
        requires digits { AreDigits D.is_digit D.BASE D.NAUGHT }
        requires fits { D.BASE ^ most ≤ 2 ^ 64 }
        ensures value { result ≡ read_as D.is_digit least most D.BASE D.NAUGHT (get_or self.old 0 []) }
        ensures left { self.new ≡ cond (is_some result) (drop 1 self.old) self.old }
    {
        let rest = self.rest();
        let (value, end) = front::<D>(rest, most);
        let left = behind(&rest[end..])?;
        if end < least {
            return None;
        }
        self.left = left;
        Some(value)
    }

    // The next field as a number of at most 12 digits.
    pub fn number(&mut self, least: usize) -> Option<u64>
        ensures value { result ≡ read_as is_digit least 12 10 48 (get_or self.old 0 []) }
        ensures left { self.new ≡ cond (is_some result) (drop 1 self.old) self.old }
    {
        self.numeral::<Decimal>(least, 12)
    }

    // The next field as the number of a name of least to most bytes.
    pub fn name(&mut self, least: usize, most: usize) -> Option<u64>
        requires { most ≤ 8 }
        ensures value { result ≡ name_of least most (get_or self.old 0 []) }
        ensures left { self.new ≡ cond (is_some result) (drop 1 self.old) self.old }
    {
        self.numeral::<Letters>(least, most)
    }

    // The next field as the number of a firm's name.
    pub fn firm(&mut self) -> Option<u64>
        ensures value { result ≡ name_of 1 4 (get_or self.old 0 []) }
        ensures left { self.new ≡ cond (is_some result) (drop 1 self.old) self.old }
    {
        self.name(1, 4)
    }

    // The next field as the number of a root's name, 0 where it is empty.
    pub fn root(&mut self) -> Option<u64>
        ensures value { result ≡ name_of 0 6 (get_or self.old 0 []) }
        ensures left { self.new ≡ cond (is_some result) (drop 1 self.old) self.old }
    {
        self.name(0, 6)
    }
}
