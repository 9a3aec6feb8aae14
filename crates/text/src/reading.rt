// The numbers of a line, a field at a time (specs/Scan): decimal, with one blank between them.
ghost use Rattle.std.specs.Prelude.{◌≡◌, cond, ◌≤◌, ltb, Some, None};
ghost use Rattle.text.specs.Width.{values_of};
ghost use Rattle.text.specs.Numbers.{numbers};
ghost use Rattle.text.specs.Scan.{field_by, field_at, fields_from};

use crate::Width;

const BLANK: u8 = b' ';

// The highest value of a field.
const HIGHEST: u32 = 65535;

// A number, and the place after the byte that ends it.
#[derive(Clone, Copy)]
struct Field {
    value: u16,
    next: usize,
}

// How many values a field of a width has.
fn values_of(w: Width) -> u32
    ensures { (result ≡ values_of w) × (result ≤ 65536) }
{
    match w {
        Width::Byte => 256,
        Width::Word => 65536,
    }
}

// A field's number, if its value is one of the width's.
fn within(value: u32, w: Width, next: usize) -> Option<Field>
    ensures { result ≡ field_by (cond (ltb value (values_of w)) (Some value) None) next }
{
    if values_of(w) <= value {
        return None;
    }
    Some(Field {
        value: value as u16,
        next,
    })
}

// The field that starts at a place. A value above every width's ends the reading, so that no number of digits is too many.
#[tactic(auto, using(crate::proofs::FieldSteps::field_end, crate::proofs::FieldSteps::field_blank))]
fn read_field(line: &[u8], from: usize, w: Width) -> Option<Field>
    ensures { result ≡ field_at w line.now from }
{
    if line.len() <= from || line[from] == BLANK {
        return None;
    }
    let mut value: u32 = 0;
    for at in from..line.len() {
        let b = line[at];
        if b == BLANK {
            return within(value, w, at + 1);
        }
        if !b.is_ascii_digit() {
            return None;
        }
        value = value * 10 + u32::from(b - b'0');
        if HIGHEST < value {
            return None;
        }
    }
    within(value, w, line.len() + 1)
}

// The numbers of a line from a place on, where it has exactly one for each of these widths.
pub fn read_numbers<const N: usize>(
    line: &[u8],
    from: usize,
    widths: [Width; N],
) -> Option<[u16; N]>
    ensures { result ≡ numbers widths.entry (fields_from line.now from) }
{
    let mut values = [0u16; N];
    let mut at = from;
    for (i, w) in widths.iter().enumerate() {
        let field = read_field(line, at, *w)?;
        values[i] = field.value;
        at = field.next;
    }
    if at <= line.len() {
        return None;
    }
    Some(values)
}
