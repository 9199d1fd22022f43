// The places of the register, one after the other.
ghost use Rattle.std.specs.Prelude.{◌≡◌, ◌++◌, ◌+◌, ◌≤◌, length, drop};
ghost use Rattle.tables.specs.Inner.Tables.{zeros};
ghost use Rattle.register.specs.Register.{register_of, place_of_identity};

use crate::words;

// The first place from one on, of the first k, whose order has an identity, or k if none has it.
pub(crate) fn place_from(register: &[u64], k: usize, from: usize, identity: u64) -> usize
    requires { (length register.now ≡ 129) × (k ≤ 64) × (from ≤ k) }
    ensures { result ≡ from + place_of_identity (drop from (register_of k register.now)) identity }
{
    for i in from..k {
        if words::identity_of(register[1 + i * 2]) == identity {
            return i;
        }
    }
    k
}

// Every number goes two places up, over the first two, and the last two become 0.
pub(crate) fn move_up(s: &mut [u64])
    requires { 2 ≤ length s.old }
    ensures { s.new ≡ drop 2 s.old ++ zeros 2 }
{
    let n = s.len() - 2;
    tables::move_down(s, 2, n);
    s[n..].fill(0);
}
