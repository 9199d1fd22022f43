// Digits: the bytes that stand for a number, decimal ones and those of a name, read from the first on and written from the last.
ghost use Rattle.std.specs.Prelude.{◌≡◌, ℕ, Bool, ◌+◌, ◌-◌, ◌*◌, ◌^◌, ◌≤◌, ◌<◌, length, take};
ghost use Rattle.std.proofs.lemmas.List.Edits.{sets};
ghost use Rattle.text.specs.Text.{is_digit, is_name_byte};
ghost use Rattle.text.specs.Inner.Taking.{run_read, last_digits, AreDigits};

// Bytes that stand for numbers below a base.
pub(crate) trait Digits {
    ghost is_digit: { ℕ → Bool };

    ghost BASE: { ℕ };

    ghost NAUGHT: { ℕ };

    // The base that they count in.
    const BASE: u64;

    // The byte that stands for nothing.
    const NAUGHT: u8;

    // Whether a byte is one of them.
    fn is_digit(byte: u8) -> bool
        ensures { result ≡ is_digit byte };
}

// The digits of a decimal number.
pub(crate) struct Decimal;

// The capitals and digits of a name, which is held in one number with a byte for each of them.
pub(crate) struct Letters;

impl Digits for Decimal {
    ghost is_digit = { is_digit };

    ghost BASE = { 10 };

    ghost NAUGHT = { 48 };

    const BASE: u64 = 10;

    const NAUGHT: u8 = b'0';

    fn is_digit(byte: u8) -> bool {
        byte.is_ascii_digit()
    }
}

impl Digits for Letters {
    ghost is_digit = { is_name_byte };

    ghost BASE = { 256 };

    ghost NAUGHT = { 0 };

    const BASE: u64 = 256;

    const NAUGHT: u8 = 0;

    fn is_digit(byte: u8) -> bool {
        byte.is_ascii_digit() | byte.is_ascii_uppercase()
    }
}

// What the digits in front of some bytes stand for, at most so many, and how many they are.
pub(crate) fn front<D: Digits>(bytes: &[u8], most: usize) -> (u64, usize)
    requires digits { AreDigits D.is_digit D.BASE D.NAUGHT }
    requires fits { D.BASE ^ most ≤ 2 ^ 64 }
    ensures { result ≡ run_read D.is_digit D.BASE D.NAUGHT (take most bytes.now) }
{
    let bytes = &bytes[..most.min(bytes.len())];
    let mut value: u64 = 0;
    for (i, byte) in bytes.iter().enumerate() {
        if !D::is_digit(*byte) {
            return (value, i);
        }
        value = value * D::BASE + u64::from(*byte - D::NAUGHT);
    }
    (value, bytes.len())
}

// Writes the last digits of a number over a room, the last of them first.
pub(crate) fn put_last<D: Digits>(n: u64, room: &mut [u8])
    requires { AreDigits D.is_digit D.BASE D.NAUGHT }
    ensures { room.new ≡ last_digits D.BASE D.NAUGHT (length room.old) n }
{
    let mut rest = n;
    for i in (0..room.len()).rev() {
        room[i] = (rest % D::BASE) as u8 + D::NAUGHT;
        rest = rest / D::BASE;
    }
}
