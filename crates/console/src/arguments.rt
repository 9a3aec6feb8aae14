// The arguments after the program's name: a command, and what it takes. The one that asks for the status is not among them.
ghost use Rattle.std.specs.Prelude.{◌≤◌, length, IfSome};

use crate::output::warn;
use crate::status::is_asked;
use std::env::FillError;
use std::rt::Env;

// How many arguments the program was started with, its own name among them.
pub fn count(rt: HostRuntime) -> usize {
    let mut first = [0u8; 1];
    for place in 0..usize::MAX {
        if let Err(FillError::NotPresent) = rt.arg(place, &mut first) {
            return place;
        }
    }
    usize::MAX
}

// An argument, put at the start of the lent bytes: empty where it is missing or longer than they are, as whoever asks takes neither for a value.
pub fn text_at<'a>(rt: HostRuntime, place: usize, lent: &'a mut [u8]) -> &'a [u8]
    ensures { length result.now ≤ length lent.old }
{
    let length = rt.arg(place, lent).unwrap_or(0);
    &lent[..length]
}

// How many arguments were given, the command among them.
pub fn given(rt: HostRuntime) -> usize {
    let count = count(rt);
    if count < 2 {
        return 0;
    }
    if is_asked(rt) { count - 2 } else { count - 1 }
}

// A command was given too few or too many arguments.
pub fn usage(rt: HostRuntime, command: &[u8]) {
    warn(rt, b"grants: ");
    warn(rt, command);
    warn(rt, b" takes other arguments; type grants help ");
    warn(rt, command);
    warn(rt, b"\n");
}

// Whether as many arguments were given as a command takes, its name among them; else says what it takes.
pub fn are(rt: HostRuntime, command: &[u8], least: usize, most: usize) -> bool {
    let count = given(rt);
    if count < least || most < count {
        usage(rt, command);
        return false;
    }
    true
}

// A name that can't be one: what it is called in the command's help, and why.
fn warn_unnamed(rt: HostRuntime, what: &[u8], why: &[u8]) {
    warn(rt, b"grants: ");
    warn(rt, what);
    warn(rt, why);
}

// The name that an argument gives, put at the start of the lent bytes; None where it is empty or too long, which is told.
pub fn name_at<'a>(
    rt: HostRuntime,
    what: &[u8],
    place: usize,
    lent: &'a mut [u8],
) -> Option<&'a [u8]>
    ensures { IfSome result (λ name. length name.now ≤ length lent.old) }
{
    match rt.arg(place, lent) {
        Ok(0) => {
            warn_unnamed(rt, what, b" is empty: give a file's name\n");
            None
        }
        Ok(length) => Some(&lent[..length]),
        Err(_) => {
            warn_unnamed(
                rt,
                what,
                b" is longer than any file's name: give a shorter one\n",
            );
            None
        }
    }
}
