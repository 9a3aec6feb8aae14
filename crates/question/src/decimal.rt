// Reads a text as a decimal number, 0 to 65535 (specs/Number).
ghost use Rattle.std.specs.Prelude.{◌≡◌};
ghost use Rattle.question.specs.Number.{typed_number};

use text::Width;
use text::reading::read_numbers;

// The number that is the whole text: no blank, no sign, at least one digit. Leading zeros are taken.
#[tactic(auto, using(crate::proofs::NumberLaws::number_none, crate::proofs::NumberLaws::number_some))]
pub fn number_of(text: &[u8]) -> Option<u16>
    ensures { result ≡ typed_number text.now }
{
    let [n] = read_numbers(text, 0, [Width::Word])?;
    Some(n)
}
