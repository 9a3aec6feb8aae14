// Document 01's number of a fault, and the value that it returns beside the number. The one place of src that has them.
ghost use Rattle.std.specs.Prelude.{◌≡◌, ◌<◌, option_to_list};
ghost use Rattle.model.specs.Fault.{fault_number, fault_values};

use crate::Fault;

// Not numbers of the enum's own, which cases with values can't be cast to.
pub fn fault_number(f: Fault) -> usize
    ensures { (result ≡ fault_number f) × (result < 100) }
{
    match f {
        Fault::BadPool => 1,
        Fault::Reversed => 2,
        Fault::ZeroNumber => 3,
        Fault::UnknownKind => 4,
        Fault::AlreadyLive => 5,
        Fault::Full => 6,
        Fault::NotLive => 7,
        Fault::ListTooShort { needed: _ } => 8,
        Fault::BrokenLinks => 9,
        Fault::BadLength => 10,
        Fault::BadLayout { block: _ } => 11,
        Fault::BadChecksum { block: _ } => 12,
        Fault::BadRecord { block: _ } => 13,
        Fault::BufferTooShort { needed: _ } => 14,
        Fault::RankTooLow => 16,
        Fault::BadOpeningsLength => 24,
        Fault::UnorderedQuarters => 25,
    }
}

// The value beside the number, a count, a length or a block, where there is one.
pub fn fault_value(f: Fault) -> Option<usize>
    ensures { option_to_list result ≡ fault_values f }
{
    match f {
        Fault::ListTooShort { needed } => Some(needed),
        Fault::BadLayout { block } => Some(block),
        Fault::BadChecksum { block } => Some(block),
        Fault::BadRecord { block } => Some(block),
        Fault::BufferTooShort { needed } => Some(needed),
        _ => None,
    }
}
