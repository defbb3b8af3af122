// Checks a mission script: makes its calls on a new store and tells which tasks are separate, what
// stands in the way of the others, and what was refused.
#![tactic(auto)]

#[cfg(test)]
mod tests;

use bank::PlainBank;
use clap::{Arg, ArgAction, Command};
use mission::{Notes, graph, read, report, standings};
use script::LONGEST;
use std::alloc::Global;
use std::io::{Read, Write};
use std::process::ExitCode;
use std::{env, fs, io};
use store::{SMALLEST_BANK, Store};

// One byte more than a script may have.
const ENOUGH: u64 = LONGEST as u64 + 1;

fn main(rt: HostRuntime) -> anyhow::Result<ExitCode> {
    let words: Vec<String> = env::args(&rt)?.collect(rt.alloc())?;
    let command = command(rt.alloc())?;
    let matches = match command.try_get_matches_from(words.as_slice()) {
        Ok(matches) => matches,
        Err(error) => {
            error.print(&rt)?;
            return Ok(ExitCode::from(if error.use_stderr() { 2 } else { 0 }));
        }
    };
    let name = matches.get_str("script").unwrap_or("-");
    let text = match input(&rt, name) {
        Ok(text) => text,
        Err(error) => {
            eprintln!(rt; "checkmission: {name}: {error}")?;
            return Ok(ExitCode::FAILURE);
        }
    };
    check(&rt, &text, matches.get_flag("dot"))
}

// The options.
fn command<'a>(heap: Global) -> anyhow::Result<Command<'a>> {
    let dot = Arg::new(heap, "dot")
        .long("dot")
        .action(ArgAction::SetTrue)
        .help("Write a graph in the language of dot instead");
    let script = Arg::new(heap, "script").value_name("SCRIPT").help(
        "The mission script; standard input if it is - or left out",
    );
    let command = Command::new(heap, "checkmission")
        .version("1.0")
        .about(
            "Tells which tasks of a mission are separate, and what stands in the way of the others",
        )
        .arg(dot)?
        .arg(script)?;
    Ok(command)
}

// The script, as far as one may be long and a byte beyond.
fn input(rt: &HostRuntime, name: &str) -> io::Result<Vec<u8>> {
    let mut text = Vec::new(rt.alloc());
    if name == "-" {
        rt.stdin().take(ENOUGH).read_to_end(&mut text)?;
    } else {
        fs::open(rt, name)?.take(ENOUGH).read_to_end(&mut text)?;
    }
    Ok(text)
}

// Makes the script's calls and prints what came of them.
fn check(rt: &HostRuntime, text: &[u8], as_graph: bool) -> anyhow::Result<ExitCode> {
    let heap = rt.alloc();
    let mut memory = vec![in heap; 0u8; SMALLEST_BANK]?;
    let mut store = Store::new(PlainBank::new(memory.as_mut_slice()));
    let notes = read(heap, &mut store, text)?;
    let standings = standings(heap, &store)?;
    let out = if as_graph {
        graph(heap, &store, &notes, &standings)?
    } else {
        report(heap, &store, &notes, &standings)?
    };
    print(rt, out.as_bytes())?;
    if as_graph {
        tell(rt, &notes, store.is_sealed())?;
    }
    Ok(if notes.refusals.is_empty() && store.is_sealed() {
        ExitCode::SUCCESS
    } else {
        ExitCode::FAILURE
    })
}

// Prints a text. That its reader wants no more of it is no mistake.
fn print(rt: &HostRuntime, text: &[u8]) -> io::Result<()> {
    match rt.stdout().write_all(text) {
        Err(error) if error.kind() == io::ErrorKind::BrokenPipe => Ok(()),
        written => written,
    }
}

// Tells on standard error which lines made nothing, and whether the store is sealed.
fn tell(rt: &HostRuntime, notes: &Notes, is_sealed: bool) -> io::Result<()> {
    for refusal in notes.refusals.iter() {
        eprintln!(rt; "{refusal}")?;
    }
    if !is_sealed {
        eprintln!(rt; "The store is not sealed.")?;
    }
    Ok(())
}
