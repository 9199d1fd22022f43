// Whether numbers are those of a register.
ghost use Rattle.std.specs.Prelude.{◌≡◌, false, not, ◌&&◌, ◌*◌, ◌≤◌, length, drop};
ghost use Rattle.machine.specs.Register.{is_open, are_different};
ghost use Rattle.tables.specs.Inner.Tables.{all_zero, places_pass};
ghost use Rattle.register.specs.SentPlace.{is_sent_place};
ghost use Rattle.register.specs.Register.{register_of};

use crate::{places, words};

// Whether the first k places hold orders with so many roots, and the others 0.
pub(crate) fn are_orders(register: &[u64], k: usize, roots: u64) -> bool
    requires { (length register.now ≡ 129) × (k ≤ 64) }
    ensures { result ≡ (places_pass 2 (is_sent_place roots) k (drop 1 register.now) && all_zero (drop (k * 2) (drop 1 register.now))) }
{
    let mut gaps: u64 = 0;
    for i in 0..k {
        let at = 1 + i * 2;
        // No way out of the loop before its end, so that the orders can be tested side by side.
        gaps |= words::sent_gaps(register[at], register[at + 1], roots);
    }
    (gaps < packing::CLEAR) & tables::is_zero(&register[1 + k * 2..])
}

// Whether no order from a place on, of the first k, has an identity; none of them has it if it is not marked.
fn is_new(register: &[u64], k: usize, from: usize, identity: u64, marked: bool) -> bool
    requires { (length register.now ≡ 129) × (k ≤ 64) × (from ≤ k) × (marked ≡ false → is_open (drop from (register_of k register.now)) identity ≡ false) }
    ensures { result ≡ not (is_open (drop from (register_of k register.now)) identity) }
{
    !marked || places::place_from(register, k, from, identity) == k
}

// Whether no two of the orders in the first k places have one identity. From the last order on; the identities that were looked at are marked by a
// remainder, and compared only where an identity has the remainder of one of them.
pub(crate) fn are_different(register: &[u64], k: usize) -> bool
    requires { (length register.now ≡ 129) × (k ≤ 64) }
    ensures { result ≡ are_different (register_of k register.now) }
{
    let mut good = true;
    let mut marks: u64 = 0;
    for i in (0..k).rev() {
        let identity = words::identity_of(register[1 + i * 2]);
        let slot = identity % 64;
        good &= is_new(register, k, i + 1, identity, bits::marked(marks, slot));
        marks = bits::mark(marks, slot);
    }
    good
}
