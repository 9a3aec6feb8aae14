// The packing of an answer into one word (specs/Pack).
#![tactic(auto)]

ghost use Rattle.std.specs.Prelude.{◌≡◌, [], ◌∷◌, ◌++◌};
ghost use Rattle.model.specs.Grant.{grant_values};
ghost use Rattle.model.specs.Fault.{fault_number, fault_values};
ghost use Rattle.model.specs.Answer.{outcome_answer, listed_answer, decision_answer, counted_answer, written_answer, matched_answer};
ghost use Rattle.openings.specs.Compare.{compared_answer};
ghost use Rattle.packing.specs.Pack.{word, pack_refusal, pack, pack_pair, pack_length, halves, pack_three};
ghost use Rattle.packing.specs.Decision.{PacksOut};

use model::faults::{fault_number, fault_value};
use model::{Cells, Decision, Fault, Grant};
use openings::Comparison;

// How many values the bits of each part hold.
const NUMBER_VALUES: u64 = 256;

const A_VALUES: u64 = 16777216;

pub const B_VALUES: u64 = 4294967296;

// How many values each half of `b` holds.
const LEFT_VALUES: u64 = 65536;

// Bits 0 to 7 the number, 8 to 31 `a`, 32 to 63 `b`.
#[tactic(auto, unfolding(crate::specs::Pack::word))]
pub fn word(number: u64, a: u64, b: u64) -> u64
    ensures { result ≡ word number a b }
{
    number % NUMBER_VALUES + 256 * (a % A_VALUES) + 4294967296 * (b % B_VALUES)
}

fn pack_fault(fault: Fault) -> u64
    ensures { result ≡ pack_refusal (fault_number fault) (fault_values fault) }
{
    let number = fault_number(fault) as u64;
    let value = fault_value(fault).unwrap_or(0) as u64;
    match fault {
        Fault::ListTooShort { .. } => word(number, value, 0),
        _ => word(number, 0, value),
    }
}

// A function for each kind of answer: each lays other values in the word, by a definition of its own.
pub fn pack_outcome(outcome: Result<(), Fault>) -> u64
    ensures { result ≡ pack (outcome_answer outcome) }
{
    match outcome {
        Ok(()) => word(0, 0, 0),
        Err(fault) => pack_fault(fault),
    }
}

pub fn pack_listed(listed: Result<usize, Fault>) -> u64
    ensures { result ≡ pack (listed_answer listed) }
{
    match listed {
        Ok(count) => word(0, count as u64, 0),
        Err(fault) => pack_fault(fault),
    }
}

pub fn pack_counted(counted: Result<Cells, Fault>) -> u64
    ensures { result ≡ pack_pair (counted_answer counted) }
{
    match counted {
        Ok(cells) => word(0, cells.live as u64, cells.free as u64),
        Err(fault) => pack_fault(fault),
    }
}

pub fn pack_written(written: Result<usize, Fault>) -> u64
    ensures { result ≡ pack_length (written_answer written) }
{
    match written {
        Ok(length) => word(0, 0, length as u64),
        Err(fault) => pack_fault(fault),
    }
}

pub fn pack_matched(matched: Result<Option<u16>, Fault>) -> u64
    ensures { result ≡ pack (matched_answer matched) }
{
    match matched {
        Ok(None) => word(0, 0, 0),
        Ok(Some(number)) => word(0, u64::from(number), 0),
        Err(fault) => pack_fault(fault),
    }
}

// Two numbers in one: the first in the high half.
#[tactic(auto, unfolding(crate::specs::Pack::halves))]
fn halves(x: u64, y: u64) -> u64
    ensures { result ≡ halves x y }
{
    65536 * (x % LEFT_VALUES) + y % LEFT_VALUES
}

pub fn pack_compared(compared: Result<Comparison, Fault>) -> u64
    ensures { result ≡ pack_three (compared_answer compared) }
{
    match compared {
        Ok(entries) => {
            let left = halves(entries.left_in_door as u64, entries.left_in_panel as u64);
            word(0, entries.agreeing as u64, left)
        }
        Err(fault) => pack_fault(fault),
    }
}

// The whole grant, and 0 behind it.
fn words_of(g: Grant) -> [u16; 10]
    ensures { result ≡ grant_values g ++ (0 ∷ []) }
{
    let b = g.bounds;
    let kind = u8::from(g.kind);
    [
        g.number,
        u16::from(g.rank),
        u16::from(kind),
        b.staff_from,
        b.staff_to,
        b.door_from,
        b.door_to,
        b.quarter_from,
        b.quarter_to,
        0,
    ]
}

// Opens and barred leave the whole grant in `out`; none and a refusal leave it as it was.
pub fn pack_decision(decision: Result<Decision, Fault>, out: &mut [u16; 10]) -> u64
    ensures { PacksOut result out.new out.old (decision_answer decision) }
{
    match decision {
        Ok(Decision::None) => word(0, 0, 0),
        Ok(Decision::Opens(g)) => {
            *out = words_of(g);
            word(0, 1, 0)
        }
        Ok(Decision::Barred(g)) => {
            *out = words_of(g);
            word(0, 2, 0)
        }
        Err(fault) => pack_fault(fault),
    }
}
