// Prints an answer as a line (document 01, "Marked cases"; specs/Text), its newline with it. The line is lent, and what it held is gone: so
// a caller can make room for it once.
ghost use Rattle.std.specs.Prelude.{◌≡◌, ◌∷◌, ◌++◌, ◌+◌, ◌*◌, ◌≤◌, length, take, Ok};
ghost use Rattle.arrayvec.specs.ArrayVec.{array_vec_len};
ghost use Rattle.model.specs.Limits.{max_grants};
ghost use Rattle.text.specs.Ascii.{blank, line};
ghost use Rattle.text.specs.Numeral.{numeral};
ghost use Rattle.slip_session.specs.Text.{each_after_blank, refusal_text, outcome_text, listed_text, decision_text, counted_text, bad_text};

use arrayvec::ArrayVec;
use model::faults::fault_number;
use model::{Cells, Decision, Fault, MAX_GRANTS};
use text::put::{put_byte, put_number, put_numbered, put_text};

// Room for the longest line: `list `, a count of up to twenty digits, 2,048 times a blank and five digits, the newline.
pub const LINE_BYTES: usize = 12314;

// A printed line.
pub type Line = ArrayVec<u8, LINE_BYTES>;

// Puts a number after a blank.
fn put_item<const N: usize>(line: &mut ArrayVec<u8, N>, n: u16)
    requires { array_vec_len line.old + 6 ≤ N }
    ensures items { line.new.items ≡ line.old.items ++ blank ∷ numeral n }
    ensures len { array_vec_len line.new ≤ array_vec_len line.old + 6 }
{
    put_byte(line, b' ');
    put_number(line, usize::from(n));
}

// Puts numbers, each after a blank.
fn put_items<const N: usize>(line: &mut ArrayVec<u8, N>, numbers: &[u16])
    requires { array_vec_len line.old + 6 * length numbers.now ≤ N }
    ensures items { line.new.items ≡ line.old.items ++ each_after_blank numbers.now }
    ensures len { array_vec_len line.new ≤ array_vec_len line.old + 6 * length numbers.now }
{
    for &n in numbers {
        put_item(line, n);
    }
}

// How many numbers of a lent list are printed: as many as were written, within the line and the list.
fn shown(written: usize, numbers: &[u16]) -> usize
    ensures { (take result numbers.now ≡ take written (take max_grants numbers.now)) × (result ≤ length numbers.now)
        × (result ≤ max_grants) }
{
    written.min(MAX_GRANTS).min(numbers.len())
}

// A line of a word.
fn print_word(word: &[u8], out: &mut Line)
    requires { length word.now ≤ 8 }
    ensures { out.new.items ≡ line word.now }
{
    out.clear();
    put_text(out, word);
    put_byte(out, b'\n');
}

// A line of a word and a number.
fn print_numbered(word: &[u8], n: usize, out: &mut Line)
    requires { length word.now ≤ 8 }
    ensures { out.new.items ≡ line (word.now ++ numeral n) }
{
    out.clear();
    put_numbered(out, word, n);
    put_byte(out, b'\n');
}

fn print_refusal(f: Fault, out: &mut Line)
    ensures { out.new.items ≡ refusal_text f }
{
    print_numbered(b"refused ", fault_number(f), out)
}

fn print_list(written: usize, numbers: &[u16], out: &mut Line)
    ensures { out.new.items ≡ listed_text (Ok written) (take max_grants numbers.now) }
{
    out.clear();
    put_numbered(out, b"list ", written);
    put_items(out, &numbers[..shown(written, numbers)]);
    put_byte(out, b'\n');
}

fn print_cells(cells: Cells, out: &mut Line)
    ensures { out.new.items ≡ counted_text (Ok cells) }
{
    out.clear();
    put_numbered(out, b"count ", cells.live);
    put_numbered(out, b" ", cells.free);
    put_byte(out, b'\n');
}

// What grant or revoke answered.
pub fn print_outcome(answer: Result<(), Fault>, out: &mut Line)
    ensures { out.new.items ≡ outcome_text answer }
{
    match answer {
        Ok(()) => print_word(b"ok", out),
        Err(f) => print_refusal(f, out),
    }
}

// What list answered, with the list that was lent to it, of which the first 2,048 numbers count.
pub fn print_listed(answer: Result<usize, Fault>, numbers: &[u16], out: &mut Line)
    ensures { out.new.items ≡ listed_text answer (take max_grants numbers.now) }
{
    match answer {
        Ok(n) => print_list(n, numbers, out),
        Err(f) => print_refusal(f, out),
    }
}

// What decide answered.
pub fn print_decision(answer: Result<Decision, Fault>, out: &mut Line)
    ensures { out.new.items ≡ decision_text answer }
{
    match answer {
        Ok(Decision::Opens(g)) => print_numbered(b"opens ", usize::from(g.number), out),
        Ok(Decision::Barred(g)) => print_numbered(b"barred ", usize::from(g.number), out),
        Ok(Decision::None) => print_word(b"none", out),
        Err(f) => print_refusal(f, out),
    }
}

// What count answered.
pub fn print_counted(answer: Result<Cells, Fault>, out: &mut Line)
    ensures { out.new.items ≡ counted_text answer }
{
    match answer {
        Ok(cells) => print_cells(cells, out),
        Err(f) => print_refusal(f, out),
    }
}

// What is printed for a line that is no slip.
pub fn print_bad(out: &mut Line)
    ensures { out.new.items ≡ bad_text }
{
    print_word(b"bad", out)
}
