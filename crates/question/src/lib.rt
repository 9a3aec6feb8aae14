// What an attendant types at the panel: a number, a day, a day and time as a quarter, and a whole line as a question.
// Each reads any text; one of another form is none of these. Nothing here knows of an index, and nothing is refused.
#![tactic(auto)]

pub mod asking;
pub mod dates;
pub mod decimal;
pub mod quarters;

// Which quarter a day and time is counted as: the one that it lies in, or the first that begins at it or later.
#[derive(Clone, Copy)]
pub enum Rounding {
    Down,
    Up,
}

// What a line asks: who may open a door in a quarter, whether one of the staff may, which grants cover one of the staff at a door over all quarters
// from `from` to before `to`, the next lines of an answer, the help, or the end.
#[derive(Clone, Copy)]
pub enum Question {
    Who {
        door: u16,
        quarter: u16,
    },
    May {
        staff: u16,
        door: u16,
        quarter: u16,
    },
    Covers {
        staff: u16,
        door: u16,
        from: u16,
        to: u16,
    },
    More,
    Help,
    Quit,
}

// Why a line asks nothing: it ends in a day and time, and no base day is known; or it has another form.
#[derive(Clone, Copy)]
pub enum NoQuestion {
    NoBase,
    NotUnderstood,
}
