// Reads a line as a call (document 01, "Marked cases"; specs/Slip): its letter, then its numbers, a field at a time.
ghost use Rattle.std.specs.Prelude.{◌≡◌, [], ◌∷◌};
ghost use Rattle.slip_session.specs.Slip.{box_at, grant_widths, grant_slip, slip_by, letter_slip, parse_line};
ghost use Rattle.slip_session.specs.Longest.{slip_of};
ghost use Rattle.text.specs.Numbers.{numbers};
ghost use Rattle.text.specs.Scan.{fields_from};

use crate::{LONGEST, Slip};
use model::Box;
use text::Width;
use text::reading::read_numbers;

const BLANK: u8 = b' ';

// Where the numbers start: after the letter and a blank.
const NUMBERS: usize = 2;

const GRANT: [Width; 9] = [
    Width::Word,
    Width::Byte,
    Width::Byte,
    Width::Word,
    Width::Word,
    Width::Word,
    Width::Word,
    Width::Word,
    Width::Word,
];

fn box_of(values: [u16; 6]) -> Box
    ensures { result ≡ box_at 0 values }
{
    let [
        staff_from,
        staff_to,
        door_from,
        door_to,
        quarter_from,
        quarter_to,
    ] = values;
    Box {
        staff_from,
        staff_to,
        door_from,
        door_to,
        quarter_from,
        quarter_to,
    }
}

// The six numbers after the kind are the box.
fn grant_slip(line: &[u8]) -> Option<Slip>
    ensures { result ≡ slip_by grant_slip (numbers grant_widths (fields_from line.now 2)) }
{
    let [number, rank, kind, a, b, c, d, e, f] = read_numbers(line, NUMBERS, GRANT)?;
    Some(Slip::Grant {
        number,
        rank: rank as u8,
        kind: kind as u8,
        bounds: box_of([a, b, c, d, e, f]),
    })
}

// The call of a letter with the numbers that follow it.
#[tactic(auto, unfolding(crate::specs::Slip::letter_slip))]
fn by_letter(letter: u8, line: &[u8]) -> Option<Slip>
    ensures { result ≡ letter_slip letter (fields_from line.now 2) }
{
    match letter {
        b'G' => grant_slip(line),
        b'R' => {
            let [number] = read_numbers(line, NUMBERS, [Width::Word])?;
            Some(Slip::Revoke(number))
        }
        b'L' => {
            let bounds = read_numbers(line, NUMBERS, [Width::Word; 6])?;
            Some(Slip::List(box_of(bounds)))
        }
        b'D' => {
            let [staff, door, quarter] = read_numbers(line, NUMBERS, [Width::Word; 3])?;
            Some(Slip::Decide {
                staff,
                door,
                quarter,
            })
        }
        b'C' => {
            let [] = read_numbers(line, NUMBERS, [])?;
            Some(Slip::Count)
        }
        _ => None,
    }
}

// The call of a line, which is given without its newline.
#[tactic(auto, using(crate::proofs::SlipLaws::empty, crate::proofs::SlipLaws::single, crate::proofs::SlipLaws::joined, crate::proofs::SlipLaws::parted))]
pub fn parse(line: &[u8]) -> Option<Slip>
    ensures { result ≡ parse_line line.now }
{
    if line.is_empty() || 1 < line.len() && line[1] != BLANK {
        return None;
    }
    by_letter(line[0], line)
}

// The same; a line longer than any slip is none.
pub fn slip_of(line: &[u8]) -> Option<Slip>
    ensures { result ≡ slip_of line.now }
{
    if LONGEST < line.len() {
        return None;
    }
    parse(line)
}
