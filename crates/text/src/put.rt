// Text put at the end of a line of fixed capacity: a byte, a text, a number.
ghost use Rattle.std.specs.Prelude.{◌≡◌, [], ◌∷◌, ◌++◌, ◌+◌, ◌<◌, ◌≤◌, length};
ghost use Rattle.arrayvec.specs.ArrayVec.{array_vec_len};
ghost use Rattle.text.specs.Numeral.{numeral, place_digit, numbered, max_digits};

use arrayvec::ArrayVec;

// A number of 64 bits has no more digits.
const MAX_DIGITS: usize = 20;

pub fn put_byte<const N: usize>(line: &mut ArrayVec<u8, N>, b: u8)
    requires { array_vec_len line.old < N }
    ensures items { line.new.items ≡ line.old.items ++ b ∷ [] }
    ensures len { array_vec_len line.new ≡ array_vec_len line.old + 1 }
{
    line.push(b);
}

pub fn put_text<const N: usize>(line: &mut ArrayVec<u8, N>, text: &[u8])
    requires { array_vec_len line.old + length text.now ≤ N }
    ensures items { line.new.items ≡ line.old.items ++ text.now }
    ensures len { array_vec_len line.new ≡ array_vec_len line.old + length text.now }
{
    line.try_extend_from_slice(text).unwrap();
}

// Puts a number in decimal: all digits but the last, then the last.
fn push_digits(digits: &mut ArrayVec<u8, MAX_DIGITS>, n: usize)
    requires { array_vec_len digits.old + length (numeral n) ≤ max_digits }
    ensures items { digits.new.items ≡ digits.old.items ++ numeral n }
    ensures len { array_vec_len digits.new ≡ array_vec_len digits.old + length (numeral n) }
{
    if 10 <= n {
        push_digits(digits, n / 10);
    }
    digits.push(b'0' + (n % 10) as u8);
}

// A number in decimal.
pub fn numeral(n: usize) -> ArrayVec<u8, MAX_DIGITS>
    ensures { result.items ≡ numeral n }
{
    let mut digits = ArrayVec::new();
    push_digits(&mut digits, n);
    digits
}

// The digit of a number for a power of ten, where the number reaches it.
fn put_place<const N: usize>(line: &mut ArrayVec<u8, N>, n: u16, power: u16)
    requires { (0 < power) × (array_vec_len line.old < N) }
    ensures items { line.new.items ≡ line.old.items ++ place_digit n power }
    ensures len { array_vec_len line.new ≡ array_vec_len line.old + length (place_digit n power) }
{
    if power <= n {
        line.push(b'0' + (n / power % 10) as u8);
    }
}

// A number of 16 bits, digit by digit into the line: most that are printed are such, and the digits of a longer one are copied.
fn put_word<const N: usize>(line: &mut ArrayVec<u8, N>, n: u16)
    requires { array_vec_len line.old + length (numeral n) ≤ N }
    ensures items { line.new.items ≡ line.old.items ++ numeral n }
    ensures len { array_vec_len line.new ≡ array_vec_len line.old + length (numeral n) }
{
    put_place(line, n, 10000);
    put_place(line, n, 1000);
    put_place(line, n, 100);
    put_place(line, n, 10);
    put_byte(line, b'0' + (n % 10) as u8);
}

pub fn put_number<const N: usize>(line: &mut ArrayVec<u8, N>, n: usize)
    requires { array_vec_len line.old + length (numeral n) ≤ N }
    ensures items { line.new.items ≡ line.old.items ++ numeral n }
    ensures len { array_vec_len line.new ≡ array_vec_len line.old + length (numeral n) }
{
    match u16::try_from(n) {
        Ok(word) => put_word(line, word),
        Err(_) => put_text(line, numeral(n).as_slice()),
    }
}

// Puts a text and a number behind it.
pub fn put_numbered<const N: usize>(line: &mut ArrayVec<u8, N>, text: &[u8], n: usize)
    requires { array_vec_len line.old + length text.now + max_digits ≤ N }
    ensures items { line.new.items ≡ line.old.items ++ numbered text.now n }
    ensures len { array_vec_len line.new ≤ array_vec_len line.old + length text.now + max_digits }
{
    put_text(line, text);
    put_number(line, n);
}
