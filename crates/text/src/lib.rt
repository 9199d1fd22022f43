// The bytes of a profile: lines, fields, names and numbers.
#![tactic(auto)]

ghost use Rattle.std.specs.Prelude.{◌≡◌, false, ◌+◌, ◌≤◌, ◌<◌, length, drop, MatchOption};
ghost use Rattle.std.proofs.lemmas.List.Edits.{sets};
ghost use Rattle.laws.specs.Lists.{same};
ghost use Rattle.text.specs.Digits.{name_bytes, decimal};
ghost use Rattle.text.specs.Text.{index_of, name_of};

mod digits;
mod fields;

use digits::{Decimal, Letters, front, put_last};
pub use fields::Fields;

// How many bytes stand before the first b, if there is one.
pub(crate) fn place_of(s: &[u8], b: u8) -> Option<usize>
    ensures { MatchOption result (index_of b s.now ≡ length s.now) (λ at. (at ≡ index_of b s.now) × (at < length s.now)) }
{
    s.iter().position(|x| *x == b)
}

// How many bytes stand before the first b: all, if there is none.
fn index_of(s: &[u8], b: u8) -> usize
    ensures { result ≡ index_of b s.now }
{
    place_of(s, b).unwrap_or(s.len())
}

// The place of the first b from a place on, or the end; a place past the end is told as it is.
pub fn find(s: &[u8], from: usize, b: u8) -> usize
    ensures { result ≡ from + index_of b (drop from s.now) }
{
    from + index_of(&s[from.min(s.len())..], b)
}

// Whether b stands among eight bytes. The fold has no way out, so that they are compared at once.
fn is_near(eight: &[u8; 8], b: u8) -> bool
    ensures { result ≡ false → index_of b eight.now ≡ length eight.now }
{
    eight.iter().fold(false, |near, x| near | (*x == b))
}

// The same place as `find` tells, for a byte that stands far away: eight bytes at a time, until it is near.
pub fn find_far(s: &[u8], from: usize, b: u8) -> usize
    ensures { result ≡ from + index_of b (drop from s.now) }
{
    let all = &s[from.min(s.len())..];
    let mut far = 0;
    for eight in all.as_chunks::<8>().0 {
        if is_near(eight, b) {
            break;
        }
        far += 8;
    }
    from + far + index_of(&all[far..], b)
}

// Whether a field holds a word and nothing else.
pub fn is_field(field: &[u8], word: &[u8]) -> bool
    ensures { result ≡ same field.now word.now }
{
    field == word
}

// The number of a name of least to most bytes.
fn name(f: &[u8], least: usize, most: usize) -> Option<u64>
    requires { most ≤ 8 }
    ensures { result ≡ name_of least most f.now }
{
    let (value, count) = front::<Letters>(f, most);
    ((least <= count) & (count == f.len())).then_some(value)
}

// The number of a firm's name.
pub fn firm_name(f: &[u8]) -> Option<u64>
    ensures { result ≡ name_of 1 4 f.now }
{
    name(f, 1, 4)
}

// The number of a root's name, 0 where the field is empty.
pub fn root_name(f: &[u8]) -> Option<u64>
    ensures { result ≡ name_of 0 6 f.now }
{
    name(f, 0, 6)
}

// How many decimal digits a number has.
pub fn decimal_size(n: u64) -> usize
    ensures { result ≡ length (decimal n) }
{
    if n == 0 { 1 } else { n.ilog10() as usize + 1 }
}

// How many bytes a name has that is held in one number.
pub fn name_size(name: u64) -> usize
    ensures { result ≡ length (name_bytes name) }
{
    (64 - name.leading_zeros()).div_ceil(8) as usize
}

// Writes bytes from a place on, and answers the place after them.
pub fn put_words(words: &[u8], room: &mut [u8], at: usize) -> usize
    requires { at + length words.now ≤ length room.old }
    ensures value { result ≡ at + length words.now }
    ensures room_after { room.new ≡ sets room.old at words.now }
{
    let end = at + words.len();
    room[at..end].copy_from_slice(words);
    end
}

// Writes a name that is held in one number from a place on, its last byte first, and answers the place after it.
pub fn put_name(name: u64, room: &mut [u8], at: usize) -> usize
    requires { at + length (name_bytes name) ≤ length room.old }
    ensures value { result ≡ at + length (name_bytes name) }
    ensures room_after { room.new ≡ sets room.old at (name_bytes name) }
{
    let end = at + name_size(name);
    put_last::<Letters>(name, &mut room[at..end]);
    end
}

// Writes a number in decimal digits from a place on, its last digit first, and answers the place after it.
pub fn put_decimal(n: u64, room: &mut [u8], at: usize) -> usize
    requires { at + length (decimal n) ≤ length room.old }
    ensures value { result ≡ at + length (decimal n) }
    ensures room_after { room.new ≡ sets room.old at (decimal n) }
{
    let end = at + decimal_size(n);
    put_last::<Decimal>(n, &mut room[at..end]);
    end
}
