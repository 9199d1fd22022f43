// The names of a profile's roots: which numbers hold one, and that no two are the same.
ghost use Rattle.std.specs.Prelude.{◌≡◌, ◌≤◌, ◌<◌, true, false, length};
ghost use Rattle.text.specs.Text.{all, is_name_byte};
ghost use Rattle.text.specs.Digits.{name_bytes};
ghost use Rattle.given.specs.Names.{is_name_number};
ghost use Rattle.given.specs.Given.{is_fresh};
ghost use Rattle.given.specs.Parts.{names_hold, roots_hold};

// The highest bit of each of eight bytes.
const HIGHS: u64 = 0x8080_8080_8080_8080;

// Whether the bytes of a number, of which there are so many, are digits and capitals: all at once, by the highest bit of each. With 80 more a byte has it
// from 48 on, taken from 185 it has it up to 57, and so for 65 and 90; no byte below 128 reaches into its neighbour.
fn are_name_bytes(n: u64, size: u64) -> bool
    requires { (size < 8) × (size ≡ length (name_bytes n)) }
    ensures { result ≡ all is_name_byte (name_bytes n) }
{
    if n & HIGHS != 0 {
        return false;
    }
    let digits = (n + 0x5050_5050_5050_5050) & (0xB9B9_B9B9_B9B9_B9B9 - n);
    let capitals = (n + 0x3F3F_3F3F_3F3F_3F3F) & (0xDADA_DADA_DADA_DADA - n);
    let own = ((1u64 << (size * 8)) - 1) & HIGHS;
    (digits | capitals) & own == own
}

// Whether a number holds a name of least to most capitals or digits: its bytes from the lowest on, up to the highest that is not 0.
pub fn is_name_number(n: u64, least: u64, most: u64) -> bool
    requires { most < 8 }
    ensures { result ≡ is_name_number least most n }
{
    let size = text::name_size(n) as u64;
    if (size < least) | (most < size) {
        return false;
    }
    are_name_bytes(n, size)
}

// Whether a name does not stand among these.
fn is_fresh(name: u64, names: &[u64]) -> bool
    ensures { result ≡ is_fresh name names.now }
{
    let mut fresh = true;
    for other in names {
        fresh &= *other != name;
    }
    fresh
}

// Whether a name does not stand among these, none of which is it if it is not marked.
fn is_new(name: u64, names: &[u64], marked: bool) -> bool
    requires { marked ≡ false → is_fresh name names.now ≡ true }
    ensures { result ≡ is_fresh name names.now }
{
    !marked || is_fresh(name, names)
}

// Whether the first n places hold the names of roots, no two the same, and the others 0. From the last name on; the names that were looked at are marked by
// a remainder, and compared only where a name has the remainder of one of them.
fn names_hold(names: &[u64], n: usize) -> bool
    requires { (length names.now ≡ 64) × (n ≤ 64) }
    ensures { result ≡ names_hold n names.now }
{
    let mut marks = [false; 256];
    for i in (0..n).rev() {
        let name = names[i];
        let slot = (name % 229) as usize;
        if !(is_name_number(name, 1, 6) & is_new(name, &names[i + 1..n], marks[slot])) {
            return false;
        }
        marks[slot] = true;
    }
    tables::is_zero(&names[n..])
}

// Whether the roots' table holds as many names as it says, no two the same.
pub fn are_roots(roots: &[u64]) -> bool
    requires { length roots.now ≡ 65 }
    ensures { result ≡ roots_hold roots.now }
{
    let n = roots[0] as usize;
    if 64 < n {
        return false;
    }
    names_hold(&roots[1..crate::ROOTS_SIZE], n)
}
