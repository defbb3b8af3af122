// Runs the script on standard input and prints its answers.
#![tactic(auto)]

use script::{LONGEST, answer_script};
use std::io;
use std::io::{Read, Write};

// One byte more than a script may have.
const ENOUGH: u64 = LONGEST as u64 + 1;

fn main(rt: HostRuntime) -> io::Result<()> {
    let mut input = Vec::new(rt.alloc());
    rt.stdin().take(ENOUGH).read_to_end(&mut input)?;
    let answers = answer_script(rt.alloc(), &input)?;
    rt.stdout().write_all(&answers)
}
