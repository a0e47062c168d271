#![tactic(auto)]

// Lists the boards of the LIN file on standard input. (01: Program linlist)
use std::io;

fn main(rt: HostRuntime) -> io::Result<()> {
    linlist_input::list_input(&mut rt.stdin(), &mut rt.stdout())
}
