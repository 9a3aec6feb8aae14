// The pages of `grants help`, in plain words, each with an example.
use console::output::{Stream, Unwritten};

pub const ALL: &[u8] = b"\
grants panel FILE [BASE-DAY]     bank: answer questions about doors
grants cut JOURNAL FROM TO FILE  head office: write a bank's file
grants match JOURNAL FILE        match: hold head office's grants against a bank's file
grants openings DOOR-RECORD PANEL-RECORD [BASE-DAY]
                                 match: hold a door's record of openings against the panel's
grants check FILE                whether a file is sound, and if not, what is wrong in it
grants show FILE                 a file's grants as a table
grants path FILE NUMBER          support: a grant's cell in the tree, and those above it
grants slips                     a slip a line from standard input, an answer a line
grants help COMMAND              one of these commands, with an example
";

// What can be typed at the panel. A backslash would take the first line's blanks.
pub const QUESTIONS: &[u8] = b"  who DOOR QUARTER           every grant that touches the door then
  may STAFF DOOR QUARTER     whether this staff number may open it then
  covers STAFF DOOR FROM TO  every grant that covers all of FROM until TO
  for QUARTER also a day and time, as 2026-01-31 10:00, if the base day is known;
  for FROM and TO likewise, both; TO is the first quarter no longer covered
  Enter: more of the same; help; quit

";

// The panel's page, before what can be typed and after it.
const PANEL: &[u8] = b"\
grants panel FILE [BASE-DAY]
Loads a bank's file and answers questions that you type:
";

const PANEL_EXAMPLE: &[u8] = b"\
BASE-DAY is the day from which your quarter-hours are counted; with it, day and
time stand beside each quarter. who marks a grant that a higher one overrides:
higher is the higher rank, and at equal rank the higher number.
Example: grants panel bank.lgf 2026-01-01
";

pub fn say_panel(out: Stream) -> Result<(), Unwritten> {
    out.put(PANEL)?;
    out.put(QUESTIONS)?;
    out.put(PANEL_EXAMPLE)
}

pub const CUT: &[u8] = b"\
grants cut JOURNAL FROM TO FILE [empty]
Replays a journal, a text file of slips G and R, and writes the grants that touch
the doors FROM to TO as a bank's file. Stops at a slip that is refused, with its
line and the reason; FILE then stays as it was. An existing FILE is replaced whole,
if it is a grants file or empty; its mode and owner stay. Where no grant is left and
FILE holds some, the word empty behind FILE says that this is meant.
Example: grants cut night.txt 1 40 bank.lgf
";

pub const MATCH: &[u8] = b"\
grants match JOURNAL FILE
Replays head office's journal and holds its grants for the file's doors against
the file: equal, or the lowest number that differs, with both sides whole.
Example: grants match night.txt bank.lgf
";

pub const OPENINGS: &[u8] = b"\
grants openings DOOR-RECORD PANEL-RECORD [BASE-DAY]
Holds a door's record of openings against the panel's: how many entries agree, how
many are left in each, and which, up to 20 of each. Entries agree where door, quarter
and staff do. A record has at most 4096 entries, and no quarter below the one before.
BASE-DAY is the day from which your quarter-hours are counted; with it, day and
time stand beside each quarter.
Example: grants openings door.rec panel.rec 2026-01-01
";

pub const CHECK: &[u8] = b"\
grants check FILE
Says whether a file is sound; if not, in which block, and what is wrong there.
Example: grants check bank.lgf
";

pub const SHOW: &[u8] = b"\
grants show FILE
A file's grants, ascending by number, a row each: number, rank, staff and doors from
and to, quarters from and until, and whether the grant opens or bars.
Example: grants show bank.lgf
";

pub const PATH: &[u8] = b"\
grants path FILE NUMBER
Shows where the grant NUMBER stands in the tree of an index: its own cell first, then
the cell above it, and so on up to the root. A row a cell: the cell's number, its level,
0 for the root, and the grant in it as show prints it. FILE is a journal, which is
replayed, or a bank's file, which is loaded as the panel loads it.
Example: grants path night.txt 24
";

pub const SLIPS: &[u8] = b"\
grants slips
Reads a slip a line from standard input and prints an answer a line; takes no name:
  G NUMBER RANK KIND STAFF-FROM STAFF-TO DOOR-FROM DOOR-TO QUARTER-FROM QUARTER-TO
  R NUMBER    L and a box of six values    D STAFF DOOR QUARTER    C
Staff and doors end with their TO; QUARTER-TO is the first quarter that isn't covered.
Example: grants slips < night.txt
";
