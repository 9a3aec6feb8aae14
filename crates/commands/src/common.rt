// What several answers say.
use crate::messages::Refusal;
use calendar::Date;
use calendar::note::moment_text;
use console::arguments::text_at;
use console::names::warn_name;
use console::output::{Stream, Unwritten, warn, warnings};
use model::Fault;
use question::decimal::number_of;
use std::fmt;

// The number that an argument gives.
pub fn number_at(rt: HostRuntime, place: usize) -> Option<u16> {
    let mut lent = [0u8; 4096];
    number_of(text_at(rt, place, &mut lent))
}

// The quarter's number, with its day and time beside it.
pub fn say_moment(out: Stream, base: Option<Date>, quarter: u16) -> Result<(), Unwritten> {
    write!(out, "{quarter}")?;
    out.put(moment_text(base, quarter).as_slice())
}

// A refusal as an answer.
pub fn say_fault(out: Stream, fault: Fault) -> Result<(), Unwritten> {
    write!(out, "{}\n", Refusal(fault))
}

// So many grants.
#[derive(Clone, Copy)]
pub struct Grants(pub usize);

impl fmt::Display for Grants {
    fn fmt<W: fmt::Write>(&self, f: &mut fmt::Formatter<W>) -> fmt::Result {
        match self.0 {
            1 => f.write_str("1 grant"),
            total => write!(f, "{total} grants"),
        }
    }
}

// Says a refusal on standard error.
pub fn warn_fault(rt: HostRuntime, fault: Fault) {
    let _ = write!(warnings(rt), "grants: {}\n", Refusal(fault));
}

// Says something of a file on standard error.
pub fn warn_file(rt: HostRuntime, path: &[u8], text: &[u8]) {
    warn(rt, b"grants: ");
    warn_name(rt, path);
    warn(rt, text);
}
