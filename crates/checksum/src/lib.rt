// The check of a block (document 01, "The grants file"), of byte strings of any length: by the table of powers, a chunk of up to 510 bytes at
// a time. A block is one chunk: its products are added, and one remainder is taken at the end.
#![tactic(auto)]

ghost use Rattle.std.specs.Prelude.{◌≡◌, ◌+◌, ◌*◌, ◌^◌, ◌%◌, ◌<◌, ◌≤◌, T, length};
ghost use Rattle.checksum.specs.Checksum.{modulus, base256, checksum};
ghost use Rattle.checksum.specs.PowerTable.{entries, most_product, is_table, Summable, Shiftable};

mod powers;

use powers::{ENTRIES, POWERS};

const MODULUS: u64 = 65521;

// A byte times a power; 255 of them fit in a u32.
fn product(byte: u8, power: u16) -> u32
    requires { power < modulus }
    ensures { (result ≡ byte * power) × (result ≤ most_product) }
{
    u32::from(byte) * u32::from(power)
}

// The bytes times their powers, added, with so many bytes behind them. In 32 bits the compiler takes several to an instruction.
fn sum_of_products(bytes: &[u8], powers: &[u16; ENTRIES], behind: usize) -> u32
    requires { Summable powers.now bytes.now behind }
    ensures { result % modulus ≡ base256 0 bytes.now * 256 ^ behind % modulus }
{
    let mut sum: u32 = 0;
    for (at, byte) in bytes.iter().enumerate() {
        sum += product(*byte, powers[bytes.len() + behind - 1 - at]);
    }
    sum
}

// A power of 256, modulo 65521. Power 510 is 256 times the last entry.
fn power(powers: &[u16; ENTRIES], exponent: usize) -> u64
    requires { T (is_table powers.now) × (exponent ≤ entries) }
    ensures { result ≡ 256 ^ exponent % modulus }
{
    if exponent < ENTRIES {
        return u64::from(powers[exponent]);
    }
    u64::from(powers[ENTRIES - 1]) * 256 % MODULUS
}

// A remainder with so many bytes behind it: times their power.
fn shifted(powers: &[u16; ENTRIES], remainder: u64, places: usize) -> u64
    requires { Shiftable powers.now places remainder }
    ensures { (result % modulus ≡ remainder * 256 ^ places % modulus) × (result < 4294967296) }
{
    remainder * power(powers, places)
}

// The bytes of a chunk, behind a remainder. Each half is a sum of its own, so that it fits in a u32.
fn sum_of_chunk(bytes: &[u8], powers: &[u16; ENTRIES], before: u64) -> u64
    requires { Shiftable powers.now (length bytes.now) before }
    ensures { result ≡ base256 before bytes.now % modulus }
{
    let half = bytes.len() / 2;
    let front = sum_of_products(&bytes[..half], powers, bytes.len() - half);
    let back = sum_of_products(&bytes[half..], powers, 0);
    (shifted(powers, before, bytes.len()) + u64::from(front) + u64::from(back)) % MODULUS
}

// Document 01's check. The byte 1 in front is the remainder before the first chunk.
pub fn checksum(bytes: &[u8]) -> u16
    ensures { result ≡ checksum bytes.now }
{
    let powers = POWERS;
    let mut sum: u64 = 1;
    for chunk in bytes.chunks(ENTRIES) {
        sum = sum_of_chunk(chunk, &powers, sum);
    }
    sum as u16
}
