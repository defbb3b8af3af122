// Runs each script of its folder, NAME.in, and compares what it prints with NAME.out.
#![tactic(auto)]

ghost use Rattle.conformance.specs.Compare.{Parted};
ghost use Rattle.std.specs.Prelude.{◌≡◌, MatchOption};

use script::answer_script;
use std::{fs, io};

fn main(rt: HostRuntime) -> io::Result<()> {
    let names = script_names(&rt)?;
    let mut differing = 0usize;
    for name in names.iter() {
        if !report(&rt, name.as_str())? {
            differing += 1;
        }
    }
    let scripts = names.len();
    println!(rt; "{scripts} scripts, {differing} differ")
}

// The names of the scripts, in order.
fn script_names(rt: &HostRuntime) -> io::Result<Vec<String>> {
    let mut names = Vec::new(rt.alloc());
    for entry in fs::read_dir(rt, ".")? {
        let entry = entry?;
        if let Some(name) = entry.file_name().strip_suffix(".in") {
            names.push(String::from_str(rt.alloc(), name)?)?;
        }
    }
    names.sort()?;
    Ok(names)
}

// Runs a script and prints whether it answers as expected.
fn report(rt: &HostRuntime, name: &str) -> io::Result<bool> {
    let input = fs::read(rt, format!(in rt.alloc(); "{name}.in")?)?;
    let Ok(expected) = fs::read(rt, format!(in rt.alloc(); "{name}.out")?) else {
        println!(rt; "{name}.out cannot be read")?;
        return Ok(false);
    };
    let printed = answer_script(rt.alloc(), input.as_slice())?;
    match lines_alike(printed.as_slice(), expected.as_slice()) {
        None => {
            println!(rt; "{name} same")?;
            Ok(true)
        }
        Some(lines) => {
            println!(rt; "{name} differs after line {lines}")?;
            Ok(false)
        }
    }
}

// How many whole lines stand before the first difference, or `None` if there is none.
fn lines_alike(a: &[u8], b: &[u8]) -> Option<usize>
    ensures { MatchOption result (a.now ≡ b.now) (Parted a.now b.now) }
{
    if a == b {
        return None;
    }
    let alike = a.iter().zip(b).take_while(|(x, y)| x == y).count();
    Some(a[..alike].iter().filter(|x| **x == b'\n').count())
}
