// What is wrong in the values of a grant that is asked for (document 01, "Faults": grant's 3, 4 and 2; document 02's 16). A record of a file is
// asked the same.
ghost use Rattle.std.specs.Prelude.{◌≡◌};
ghost use Rattle.model.specs.Arguments.{request_order, fault_of, first_wrong};
ghost use Rattle.model.specs.Call.{request};

use crate::bounds::is_reversed;
use crate::seniority::is_rank_too_low;
use crate::{Box, Fault, RequestFault};

// The tests of a request, in grant's order.
#[tactic(auto, unfolding(crate::specs::Arguments::first_wrong))]
pub fn check_request(number: u16, rank: u8, kind: u8, bounds: Box) -> Result<(), RequestFault>
    ensures { result ≡ first_wrong (request number rank kind bounds) request_order }
{
    if number == 0 {
        return Err(RequestFault::ZeroNumber);
    }
    if 1 < kind {
        return Err(RequestFault::UnknownKind);
    }
    if is_reversed(bounds) {
        return Err(RequestFault::Reversed);
    }
    if is_rank_too_low(rank, bounds.doors()) {
        return Err(RequestFault::RankTooLow);
    }
    Ok(())
}

// The fault that grant answers.
impl From<RequestFault> for Fault {
    ghost from_gives = { λ wrong f. f ≡ fault_of wrong };

    fn from(wrong: RequestFault) -> Fault {
        match wrong {
            RequestFault::ZeroNumber => Fault::ZeroNumber,
            RequestFault::UnknownKind => Fault::UnknownKind,
            RequestFault::Reversed => Fault::Reversed,
            RequestFault::RankTooLow => Fault::RankTooLow,
        }
    }
}
