// The program of the three levels, Bank, Head Office and Match (document 00): a command for each job. It reads, prints and names files;
// what it answers is decided in the libraries, which are proved.
#![tactic(auto)]

mod file_commands;

use commands::matching::match_bank;
use commands::panel_loop::panel;
use commands::report::{check, show};
use console::arguments::{given, text_at};
use console::output::warn;
use console::status::{Ending, tell};
use file_commands::on_file;

// The slip program under its other name.
fn slips(rt: HostRuntime) -> Ending {
    if 1 < given(rt) {
        warn(
            rt,
            b"grants: slips reads standard input and takes no name: type grants slips < FILE\n",
        );
        return Ending::Failed;
    }
    slip_session::program::run(rt)
}

// Runs a command. A match and no table of names and functions, which is no plainer: two of them take more than others.
fn run(rt: HostRuntime, command: &[u8]) -> Ending {
    match command {
        b"slips" => slips(rt),
        b"panel" => on_file(rt, command, 2, 3, panel),
        b"cut" => commands::cut::cut(rt),
        b"match" => on_file(rt, command, 3, 3, match_bank),
        b"openings" => openings_command::openings(rt),
        b"check" => on_file(rt, command, 2, 2, check),
        b"show" => on_file(rt, command, 2, 2, show),
        b"path" => commands::path::path(rt),
        b"help" => commands::help::help(rt),
        _ => commands::help::unknown(rt, command),
    }
}

fn run_given(rt: HostRuntime) -> Ending {
    if given(rt) == 0 {
        return commands::help::no_command(rt);
    }
    let mut lent = [0u8; 4096];
    run(rt, text_at(rt, 1, &mut lent))
}

fn main(rt: HostRuntime) {
    tell(rt, run_given(rt));
}
