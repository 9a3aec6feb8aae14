// A journal: the slips that changed an index, grants and revokes alone (document 01, "Marked cases": G and R), a slip a line. Replaying its
// lines one after another makes the calls again. A question or a line that is no slip is not made, and leaves the pool as it was; so does a
// slip that is refused.
ghost use Rattle.calls.specs.Calls.{words_step};
ghost use Rattle.slip_session.specs.JournalStep.{replay_result, journal_step};
ghost use Rattle.slip_session.specs.JournalContract.{Replays};

use crate::Slip;
use crate::parsing::slip_of;
use index::grant::grant;
use index::revoke::revoke;
use model::Fault;

// Why a journal's line was not replayed: it is a question, or no slip.
#[derive(Clone, Copy)]
pub enum NotReplayed {
    Question,
    NotASlip,
}

// Makes the call of one line of a journal, which is given without its newline: what the call answered, or why none was made.
pub fn replay_line(pool: &mut [u16], line: &[u8]) -> Result<Result<(), Fault>, NotReplayed>
    ensures { Replays (replay_result result) pool.new (journal_step words_step pool.old line.now) }
{
    let Some(slip) = slip_of(line) else {
        return Err(NotReplayed::NotASlip);
    };
    match slip {
        Slip::Grant {
            number,
            rank,
            kind,
            bounds,
        } => Ok(grant(pool, number, rank, kind, bounds)),
        Slip::Revoke(number) => Ok(revoke(pool, number)),
        Slip::List(_) => Err(NotReplayed::Question),
        Slip::Decide { .. } => Err(NotReplayed::Question),
        Slip::Count => Err(NotReplayed::Question),
    }
}
