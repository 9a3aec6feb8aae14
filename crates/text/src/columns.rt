// Numbers right-aligned in columns of a line (specs/Columns).
ghost use Rattle.std.specs.Prelude.{◌≡◌, ◌++◌, ◌+◌, ◌*◌, ◌≤◌, length};
ghost use Rattle.arrayvec.specs.ArrayVec.{array_vec_len};
ghost use Rattle.text.specs.Columns.{blanks, column_bytes, aligned, columns};

use crate::put::{numeral, put_text};
use arrayvec::ArrayVec;

const COLUMN_BYTES: usize = 8;

fn put_blanks<const N: usize>(line: &mut ArrayVec<u8, N>, count: usize)
    requires { array_vec_len line.old + count ≤ N }
    ensures items { line.new.items ≡ line.old.items ++ blanks count }
    ensures len { array_vec_len line.new ≡ array_vec_len line.old + count }
{
    for _ in 0..count {
        line.push(b' ');
    }
}

// Puts a number at the right end of a column.
fn put_aligned<const N: usize>(line: &mut ArrayVec<u8, N>, n: u16)
    requires { array_vec_len line.old + column_bytes ≤ N }
    ensures items { line.new.items ≡ line.old.items ++ aligned n }
    ensures len { array_vec_len line.new ≡ array_vec_len line.old + column_bytes }
{
    let digits = numeral(usize::from(n));
    put_blanks(line, COLUMN_BYTES - digits.len());
    put_text(line, digits.as_slice());
}

// Puts numbers in columns, one after the other.
pub fn put_columns<const N: usize>(line: &mut ArrayVec<u8, N>, values: &[u16])
    requires { array_vec_len line.old + column_bytes * length values.now ≤ N }
    ensures items { line.new.items ≡ line.old.items ++ columns values.now }
    ensures len { array_vec_len line.new ≡ array_vec_len line.old + column_bytes * length values.now }
{
    for &n in values {
        put_aligned(line, n);
    }
}
