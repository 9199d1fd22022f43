// Bytes and the number that they make, the first byte on top: the last eight are a word of their own.
ghost use Rattle.std.specs.Prelude.{◌≡◌, ◌*◌, ◌^◌, ◌≤◌, ◌<◌, length};
ghost use Rattle.bits.specs.Fields.{packed, unpacked, eights};

// Two to the 64th: what a word stays below.
const WORD: u128 = 0x1_0000_0000_0000_0000;

// The word that eight bytes hold, the first on top.
fn word(s: &[u8]) -> u64
    requires { length s.now ≡ 8 }
    ensures { result ≡ packed (eights 8) s.now }
{
    u64::from_be_bytes([s[0], s[1], s[2], s[3], s[4], s[5], s[6], s[7]])
}

// Puts into `out` the eight bytes of a word, the first on top.
fn put_word(n: u64, out: &mut [u8])
    requires { length out.old ≡ 8 }
    ensures { out.new ≡ unpacked (eights 8) n }
{
    out.copy_from_slice(&n.to_be_bytes());
}

// The number that 9 to 16 bytes hold, the first on top.
pub(crate) fn number(s: &[u8]) -> u128
    requires { (9 ≤ length s.now) × (length s.now ≤ 16) }
    ensures { result ≡ packed (eights (length s.now)) s.now }
{
    let half = s.len() - 8;
    let top = word(&s[..8]) >> (64 - half as u64 * 8);
    u128::from(top) * WORD + u128::from(word(&s[half..]))
}

// Puts into `out`, of 9 to 16 bytes, those of a number, the first on top.
pub(crate) fn put_number(n: u128, out: &mut [u8])
    requires in_bounds { (9 ≤ length out.old) × (length out.old ≤ 16) }
    requires fits { n < 2 ^ (length out.old * 8) }
    ensures { out.new ≡ unpacked (eights (length out.old)) n }
{
    let half = out.len() - 8;
    put_word((n >> (half as u64 * 8)) as u64, &mut out[..8]);
    put_word((n % WORD) as u64, &mut out[half..]);
}
