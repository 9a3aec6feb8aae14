// Reads a line as a question (specs/Question). A day and time at a line's end are split off first, and a second before them.
ghost use Rattle.std.specs.Prelude.{◌≡◌, ◌≤◌, length, replicate};
ghost use Rattle.text.specs.declared.Width.TheVariants.{Word};
ghost use Rattle.text.specs.Fields.{fields};
ghost use Rattle.text.specs.Numbers.{numbers};
ghost use Rattle.calendar.specs.Moment.{moment_bytes};
ghost use Rattle.question.specs.Quarter.{quarter_of};
ghost use Rattle.question.specs.Question.{has_marks, timed, ending, plain_question, timed_question, span_question, dated_question, question_of};

use crate::quarters::quarter_of;
use crate::{NoQuestion, Question, Rounding};
use calendar::Date;
use text::Width;
use text::reading::read_numbers;

// The longest line.
const LINE: usize = 4096;

// A day and time, and the blank before them.
const MOMENT: usize = 16;

const TAIL: usize = 17;

// The numbers that are the whole text, where it has as many as are asked for.
fn words<const N: usize>(text: &[u8]) -> Option<[u16; N]>
    ensures { result ≡ numbers (replicate N Word) (fields text.now) }
{
    read_numbers(text, 0, [Width::Word; N])
}

// What a line asks that gives its quarters as numbers, or none.
fn plain_question(line: &[u8]) -> Option<Question>
    ensures { result ≡ plain_question line.now }
{
    if let Some(rest) = line.strip_prefix(b"who ") {
        let [door, quarter] = words::<2>(rest)?;
        return Some(Question::Who { door, quarter });
    }
    if let Some(rest) = line.strip_prefix(b"may ") {
        let [staff, door, quarter] = words::<3>(rest)?;
        return Some(Question::May {
            staff,
            door,
            quarter,
        });
    }
    if let Some(rest) = line.strip_prefix(b"covers ") {
        let [staff, door, from, to] = words::<4>(rest)?;
        return Some(Question::Covers {
            staff,
            door,
            from,
            to,
        });
    }
    if line.is_empty() {
        return Some(Question::More);
    }
    if line == b"help".as_slice() {
        return Some(Question::Help);
    }
    if line == b"quit".as_slice() {
        return Some(Question::Quit);
    }
    None
}

// What the front of a line asks whose day and time are in a quarter.
fn timed_question(quarter: u16, line: &[u8]) -> Option<Question>
    ensures { result ≡ timed_question quarter line.now }
{
    if let Some(rest) = line.strip_prefix(b"who ") {
        let [door] = words::<1>(rest)?;
        return Some(Question::Who { door, quarter });
    }
    let rest = line.strip_prefix(b"may ")?;
    let [staff, door] = words::<2>(rest)?;
    Some(Question::May {
        staff,
        door,
        quarter,
    })
}

// What the front of a line asks whose two days and times are quarters.
fn span_question(from: u16, to: u16, line: &[u8]) -> Option<Question>
    ensures { result ≡ span_question from to line.now }
{
    let rest = line.strip_prefix(b"covers ")?;
    let [staff, door] = words::<2>(rest)?;
    Some(Question::Covers {
        staff,
        door,
        from,
        to,
    })
}

// Whether a text of sixteen bytes has the dashes and the colon of a day and time.
#[tactic(auto, unfolding(crate::specs::Question::has_marks))]
fn has_marks(text: &[u8]) -> bool
    requires { length text.now ≡ moment_bytes }
    ensures { result ≡ has_marks text.now }
{
    text[4] == b'-' && text[7] == b'-' && text[13] == b':'
}

// Whether a line ends in a blank and what has the form of a day and time.
#[tactic(auto, unfolding(crate::specs::Question::timed))]
fn is_timed(line: &[u8]) -> bool
    ensures { result ≡ timed line.now }
{
    TAIL <= line.len() && line[line.len() - TAIL] == b' ' && has_marks(&line[line.len() - MOMENT..])
}

// The quarter of the day and time at a line's end.
fn last_moment(rounding: Rounding, day: Date, line: &[u8]) -> Option<u16>
    requires { 17 ≤ length line.now }
    ensures { result ≡ quarter_of rounding day (ending line.now) }
{
    quarter_of(rounding, day, &line[line.len() - MOMENT..])
}

// What a line asks that ends in a day and time, or in two.
#[tactic(auto, using(crate::proofs::QuestionLaws::timed_length), unfolding(crate::specs::Question::dated_question))]
fn dated_question(day: Date, line: &[u8]) -> Option<Question>
    requires { 17 ≤ length line.now }
    ensures { result ≡ dated_question day line.now }
{
    let front = &line[..line.len() - TAIL];
    if is_timed(front) {
        let from = last_moment(Rounding::Down, day, front)?;
        let to = last_moment(Rounding::Up, day, line)?;
        return span_question(from, to, &front[..front.len() - TAIL]);
    }
    let quarter = last_moment(Rounding::Down, day, line)?;
    timed_question(quarter, front)
}

// What a line asks, which is given without its newline.
#[tactic(auto, using(crate::proofs::QuestionLaws::timed_length), unfolding(crate::specs::Question::question_of))]
pub fn question_of(base: Option<Date>, line: &[u8]) -> Result<Question, NoQuestion>
    ensures { result ≡ question_of base line.now }
{
    if LINE < line.len() {
        return Err(NoQuestion::NotUnderstood);
    }
    if !is_timed(line) {
        return plain_question(line).ok_or(NoQuestion::NotUnderstood);
    }
    let day = base.ok_or(NoQuestion::NoBase)?;
    dated_question(day, line).ok_or(NoQuestion::NotUnderstood)
}
