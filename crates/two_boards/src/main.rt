// One mission on two boards: one has its memory in one piece, the other in two chips, with even
// addresses in the first and odd ones in the second. Prints what each call answers on both, where
// the bytes of one record are on both, and whether both hold the same bytes in the end.
#![tactic(auto)]

mod boards;
mod mission;
mod report;

use boards::Boards;
use std::io;

fn main(rt: HostRuntime) -> io::Result<()> {
    let steps = mission::steps(rt.alloc())?;
    let requests = mission::requests(rt.alloc(), &steps)?;
    let mut boards = Boards::new(rt.alloc())?;
    let plain = boards.run_on_plain(rt.alloc(), &requests)?;
    let chips = boards.run_on_chips(rt.alloc(), &requests)?;
    report::print_steps(&rt, &steps, &plain, &chips)?;
    report::print_record(&rt, &boards)?;
    report::print_memory(&rt, &boards)
}
