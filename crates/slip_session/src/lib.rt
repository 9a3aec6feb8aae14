// Lines of slips (document 01, "Marked cases"), one after another, on one pool: a line read as a call, its answer printed as a line, a
// journal's line replayed, and the slip program as one function.
#![tactic(auto)]

ghost use Rattle.calls.specs.Calls.{words_step};
ghost use Rattle.slip_session.specs.LineStep.{line_step};
ghost use Rattle.slip_session.specs.Contract.{Prints};

pub mod journal;
pub mod parsing;
pub mod printing;
pub mod program;

use crate::parsing::slip_of;
use crate::printing::{
    Line, print_bad, print_counted, print_decision, print_listed, print_outcome,
};
use index::grant::grant;
use index::revoke::revoke;
use model::{Box, Choice};
use queries::count::count;
use queries::decide::decide;
use queries::list::list;

// A line's call with its arguments. A kind above 1 is a value here; grant refuses it.
#[derive(Clone, Copy)]
pub enum Slip {
    Grant {
        number: u16,
        rank: u8,
        kind: u8,
        bounds: Box,
    },
    Revoke(u16),
    List(Box),
    Decide {
        staff: u16,
        door: u16,
        quarter: u16,
    },
    Count,
}

// A line of more bytes than this is of another form, whatever it holds.
pub const LONGEST: usize = 4096;

// Makes the call that the line stands for, and prints its answer.
pub fn answer(pool: &mut [u16], lent: &mut [u16], line: &[u8], out: &mut Line)
    ensures { Prints pool.new lent.new out.new.items (line_step words_step pool.old lent.old line.now) }
{
    let Some(slip) = slip_of(line) else {
        return print_bad(out);
    };
    match slip {
        Slip::Grant {
            number,
            rank,
            kind,
            bounds,
        } => print_outcome(grant(pool, number, rank, kind, bounds), out),
        Slip::Revoke(number) => print_outcome(revoke(pool, number), out),
        Slip::List(bounds) => {
            let listed = list(pool, bounds, Choice::Touching, lent);
            print_listed(listed, lent, out)
        }
        Slip::Decide {
            staff,
            door,
            quarter,
        } => print_decision(decide(pool, staff, door, quarter), out),
        Slip::Count => print_counted(count(pool), out),
    }
}
