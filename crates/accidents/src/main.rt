// Three accidents of earlier stores, replayed on this one. Each step is printed, and each ends with
// what had to stay intact and with the faults on the log.
#![tactic(auto)]

mod full_table;
mod kept_descriptor;
mod replay;
mod wrong_length;

use replay::run;
use std::io;

fn main(rt: HostRuntime) -> io::Result<()> {
    run(
        &rt,
        "1. A camera clears its frame with a wrong length. The magnetometer record lies right behind the frame.",
        wrong_length::steps,
    )?;
    run(
        &rt,
        "2. A payload routine tries to keep a descriptor of its scratch object, whose place then goes to a filter state.",
        kept_descriptor::steps,
    )?;
    run(
        &rt,
        "3. A science task fills its table. In the middle of a slew the attitude task creates an object.",
        full_table::steps,
    )
}
