// What the commands of the program are, and how each is used: `grants help`.
use crate::pages::{ALL, CHECK, CUT, MATCH, OPENINGS, PATH, SHOW, SLIPS, say_panel};
use console::arguments::{are, given, text_at};
use console::names::warn_name;
use console::output::{answers, warn};
use console::status::{Ending, answered};

// A longer name is not said again.
const LONGEST_SAID: usize = 64;

fn warn_unknown(rt: HostRuntime, command: &[u8]) {
    if command.is_empty() || LONGEST_SAID < command.len() {
        warn(rt, b"grants: there is no such command");
    } else {
        warn(rt, b"grants: there is no command ");
        warn_name(rt, command);
    }
    warn(rt, b"; these are the commands:\n");
}

// A name that is no command.
pub fn unknown(rt: HostRuntime, command: &[u8]) -> Ending {
    warn_unknown(rt, command);
    no_command(rt)
}

// No command was given.
pub fn no_command(rt: HostRuntime) -> Ending {
    let _ = answers(rt).put(ALL);
    Ending::Failed
}

// The page of a command. A match and no table, which would have a function or a text in it: no plainer.
fn page(rt: HostRuntime, command: &[u8]) -> Ending {
    let out = answers(rt);
    let said = match command {
        b"panel" => say_panel(out),
        b"slips" => out.put(SLIPS),
        b"cut" => out.put(CUT),
        b"match" => out.put(MATCH),
        b"openings" => out.put(OPENINGS),
        b"check" => out.put(CHECK),
        b"show" => out.put(SHOW),
        b"path" => out.put(PATH),
        b"help" => out.put(ALL),
        _ => return unknown(rt, command),
    };
    answered(said, Ending::Done)
}

// All commands, or the page of the one after `help`.
pub fn help(rt: HostRuntime) -> Ending {
    if !are(rt, b"help", 1, 2) {
        return Ending::Failed;
    }
    if given(rt) < 2 {
        return answered(answers(rt).put(ALL), Ending::Done);
    }
    let mut lent = [0u8; 4096];
    page(rt, text_at(rt, 2, &mut lent))
}
