// The slip program, on standard input and output: an index of 2,048 cells, a slip a line, an answer a line (slip_session::program). It takes
// no argument.
#![tactic(auto)]

use console::arguments::given;
use console::output::warn;
use console::status::{Ending, tell};

fn run(rt: HostRuntime) -> Ending {
    if 0 < given(rt) {
        warn(
            rt,
            b"grants: slips reads standard input and takes no name: type slips < FILE\n",
        );
        return Ending::Failed;
    }
    slip_session::program::run(rt)
}

fn main(rt: HostRuntime) {
    tell(rt, run(rt));
}
