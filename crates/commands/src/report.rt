// What is said of a bank's file: its verdict, its doors, its grants. Each job validates the file once.
ghost use Rattle.grants_file.specs.FileSets.{Accepted};

use crate::common::Grants;
use crate::defects::say_verdict;
use crate::table::{say_grant, say_heads};
use console::output::{Stream, Unwritten, answers};
use console::status::{Ending, answered};
use grants_file::grants::{doors_in, grant_in, total_in};
use grants_file::validate::validate;

// The verdict in words, with the block and what is wrong in it, of a file that a command can't take.
pub fn refuse(rt: HostRuntime, file: &[u8]) -> Ending {
    answered(say_verdict(answers(rt), validate(file)), Ending::No)
}

// The doors of an accepted file, how many grants it holds, and its length.
fn say_holdings(out: Stream, file: &[u8]) -> Result<(), Unwritten>
    requires { Accepted file.now }
{
    let doors = doors_in(file);
    write!(
        out,
        "doors {} to {}, {}, {} bytes\n",
        doors.from,
        doors.to,
        Grants(total_in(file)),
        file.len()
    )
}

// The doors that a file was cut for, and what it holds. Of a refused file nothing.
pub fn say_contents(out: Stream, file: &[u8]) -> Result<(), Unwritten> {
    match validate(file) {
        Ok(()) => say_holdings(out, file),
        Err(_) => Ok(()),
    }
}

fn say_sound(out: Stream, file: &[u8]) -> Result<(), Unwritten>
    requires { Accepted file.now }
{
    say_verdict(out, Ok(()))?;
    say_holdings(out, file)
}

pub fn check(rt: HostRuntime, file: &[u8]) -> Ending {
    match validate(file) {
        Ok(()) => answered(say_sound(answers(rt), file), Ending::Done),
        unsound => answered(say_verdict(answers(rt), unsound), Ending::No),
    }
}

// An accepted file's grants as a table, ascending, and what it holds.
fn say_table(out: Stream, file: &[u8]) -> Result<(), Unwritten>
    requires { Accepted file.now }
{
    say_heads(out)?;
    for i in 0..total_in(file) {
        say_grant(out, grant_in(file, i))?;
    }
    say_holdings(out, file)
}

pub fn show(rt: HostRuntime, file: &[u8]) -> Ending {
    match validate(file) {
        Ok(()) => answered(say_table(answers(rt), file), Ending::Done),
        unsound => answered(say_verdict(answers(rt), unsound), Ending::No),
    }
}
