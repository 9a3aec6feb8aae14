// The attendant's panel: a bank's file is loaded, and questions that are typed in are answered, one a screenful.
use crate::covers::{say_covers, say_holding, shift_box};
use crate::may::say_may;
use crate::pages::QUESTIONS;
use crate::report::{refuse, say_contents};
use crate::shown::{Asked, Bank, Pending};
use crate::who::{say_rows, say_who};
use base_day::{NoBaseDay, base_at};
use calendar::Date;
use console::lines::{Longer, fresh, next_line};
use console::output::{Stream, Unwritten, answers};
use console::status::Ending;
use file_calls::load::load;
use file_contents::door_range::has_door;
use model::Box;
use pool::layout::MAX_WORDS;
use question::asking::question_of;
use question::{NoQuestion, Question};
use slip_session::LONGEST;
use slip_session::program::warn_input;
use std::io::IsTerminal;

// One byte more than the longest line that is read, so that a longer one is seen to be longer.
const HELD: usize = LONGEST + 1;

// A bank's file holds every grant for its own doors, and of other doors' grants only some: so it is asked about its own doors alone.
fn say_foreign(out: Stream, file: &[u8], door: u16) -> Result<Option<Pending>, Unwritten> {
    write!(
        out,
        "door {door} is not of this bank: ask about one of its own\n"
    )?;
    say_contents(out, file)?;
    out.put(b"\n")?;
    Ok(None)
}

fn answer_who(
    out: Stream,
    bank: Bank,
    door: u16,
    quarter: u16,
) -> Result<Option<Pending>, Unwritten> {
    if !has_door(bank.file, door) {
        return say_foreign(out, bank.file, door);
    }
    say_who(out, bank, door, quarter)?;
    say_rows(out, bank, door, quarter, 0)
}

fn answer_covers(out: Stream, bank: Bank, bounds: Box) -> Result<Option<Pending>, Unwritten> {
    if !has_door(bank.file, bounds.door_from) {
        return say_foreign(out, bank.file, bounds.door_from);
    }
    say_covers(out, bank, bounds)
}

fn answer_may(
    out: Stream,
    bank: Bank,
    staff: u16,
    door: u16,
    quarter: u16,
) -> Result<Option<Pending>, Unwritten> {
    if !has_door(bank.file, door) {
        return say_foreign(out, bank.file, door);
    }
    say_may(out, bank, staff, door, quarter)?;
    Ok(None)
}

// Goes on with the last answer in rows.
fn answer_more(
    out: Stream,
    bank: Bank,
    pending: Option<Pending>,
) -> Result<Option<Pending>, Unwritten> {
    let Some(Pending { asked, rows }) = pending else {
        return Ok(None);
    };
    match asked {
        Asked::Who { door, quarter } => say_rows(out, bank, door, quarter, rows),
        Asked::Covers(bounds) => say_holding(out, bank, bounds, rows),
    }
}

// Answers a question. Gives what is left of the last answer in rows.
fn answer(
    out: Stream,
    bank: Bank,
    asked: Question,
    pending: Option<Pending>,
) -> Result<Option<Pending>, Unwritten> {
    match asked {
        Question::Who { door, quarter } => answer_who(out, bank, door, quarter),
        Question::May {
            staff,
            door,
            quarter,
        } => answer_may(out, bank, staff, door, quarter),
        Question::Covers {
            staff,
            door,
            from,
            to,
        } => answer_covers(out, bank, shift_box(staff, door, from, to)),
        Question::More => answer_more(out, bank, pending),
        Question::Help => {
            out.put(QUESTIONS)?;
            Ok(pending)
        }
        Question::Quit => Ok(pending),
    }
}

// Says how to ask.
fn advise(out: Stream, wrong: NoQuestion) -> Result<(), Unwritten> {
    match wrong {
        NoQuestion::NoBase => out.put(
            b"no base day is known: ask by the quarter's number, or start grants panel FILE BASE-DAY\n\n",
        ),
        NoQuestion::NotUnderstood => out.put(
            b"not understood: type who DOOR QUARTER, may STAFF DOOR QUARTER, or covers STAFF DOOR FROM TO; help tells more\n\n",
        ),
    }
}

// A mark that a question can be typed, where a person types.
fn show_ready(rt: HostRuntime) -> Result<(), Unwritten> {
    if rt.stdin().is_terminal() {
        return answers(rt).put(b"panel> ");
    }
    Ok(())
}

// Questions until `quit` or the end of the input, or an answer that can't be written. A proved loop has to end: it counts its turns, up to
// a number that no day uses up.
fn ask(
    rt: HostRuntime,
    bank: Bank,
    input: &mut [u8],
    line: &mut [u8],
) -> Result<Ending, Unwritten> {
    let mut cursor = fresh();
    let mut pending: Option<Pending> = None;
    let mut from = rt.stdin();
    for _ in 0..u64::MAX {
        show_ready(rt)?;
        let pulled = next_line(&mut from, input, cursor, line, Longer::Dropped);
        let n = match pulled.line {
            Ok(Some(n)) => n,
            Ok(None) => return Ok(Ending::Done),
            Err(unread) => return Ok(warn_input(rt, unread)),
        };
        match question_of(bank.base, &line[..n]) {
            Ok(Question::Quit) => return Ok(Ending::Done),
            Ok(asked) => pending = answer(answers(rt), bank, asked, pending)?,
            Err(wrong) => advise(answers(rt), wrong)?,
        }
        cursor = pulled.cursor;
    }
    Ok(Ending::Done)
}

// Says what was loaded, and answers questions about it.
fn open_panel(rt: HostRuntime, bank: Bank) -> Result<Ending, Unwritten> {
    let out = answers(rt);
    out.put(b"loaded: ")?;
    say_contents(out, bank.file)?;
    out.put(QUESTIONS)?;
    let mut input = [0u8; 4096];
    let mut line = [0u8; HELD];
    ask(rt, bank, &mut input, &mut line)
}

// Loads the file and answers questions about it.
fn open(rt: HostRuntime, file: &[u8], base: Option<Date>) -> Ending {
    let mut pool = [0u16; MAX_WORDS];
    if load(&mut pool, file).is_err() {
        return refuse(rt, file);
    }
    let bank = Bank {
        file,
        pool: &pool,
        base,
    };
    open_panel(rt, bank).unwrap_or(Ending::Failed)
}

pub fn panel(rt: HostRuntime, file: &[u8]) -> Ending {
    match base_at(rt, 3) {
        Ok(base) => open(rt, file, base),
        Err(NoBaseDay) => Ending::Failed,
    }
}
