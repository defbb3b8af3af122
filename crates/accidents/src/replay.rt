// A replay: a store over a plain bank, whose calls are printed as steps, and the log of its faults.
use bank::PlainBank;
use rules::Fault;
use std::{fmt, io};
use store::{SMALLEST_BANK, Store};

#[derive(Drop)]
pub(crate) struct Replay<'a> {
    pub(crate) rt: &'a HostRuntime,
    pub(crate) store: Store<PlainBank<'a>>,
    faults: Vec<Fault>,
}

// Bytes as a line shows them, each behind a space.
#[derive(Clone, Copy)]
struct Bytes<'a>(&'a [u8]);

impl fmt::Display for Bytes<'_> {
    fn fmt<W: fmt::Write>(&self, f: &mut fmt::Formatter<W>) -> fmt::Result {
        for byte in self.0.iter() {
            write!(f, " {byte}")?;
        }
        Ok(())
    }
}

// Prints a title, the steps on a new store, and the faults that they met.
pub(crate) fn run<F: FnOnce(&mut Replay) -> io::Result<()>>(
    rt: &HostRuntime,
    title: &str,
    steps: F,
) -> io::Result<()>
    requires { F.IsAlwaysCallable steps }
{
    println!(rt; "{title}")?;
    let mut memory = vec![in rt.alloc(); 0u8; SMALLEST_BANK]?;
    let mut replay = Replay::new(rt, memory.as_mut_slice());
    steps(&mut replay)?;
    replay.print_faults()
}

impl<'a> Replay<'a> {
    // A new store over a bank in this memory, and no fault yet.
    fn new(rt: &'a HostRuntime, memory: &'a mut [u8]) -> Replay<'a> {
        let store = Store::new(PlainBank::new(memory));
        Replay {
            rt,
            store,
            faults: Vec::new(rt.alloc()),
        }
    }

    // Makes a call, prints it as a step with what it answered, and notes a fault.
    pub(crate) fn step<F: FnOnce(&mut Store<PlainBank>) -> Result<(), Fault>>(
        &mut self,
        what: &str,
        call: F,
    ) -> io::Result<()>
        requires { F.IsAlwaysCallable call }
    {
        match call(&mut self.store) {
            Ok(()) => println!(self.rt; "  {what}: done"),
            Err(fault) => {
                self.faults.push(fault)?;
                let number = fault.reason.number();
                println!(self.rt; "  {what}: refused, fault {number}, {}", fault.reason)
            }
        }
    }

    // Reads bytes of an object and prints them, or that they cannot be read.
    pub(crate) fn show_bytes(
        &self,
        task: u32,
        source: u16,
        offset: u32,
        bytes: &mut [u8],
        reads: &str,
        cannot: &str,
    ) -> io::Result<()> {
        if self.store.read(task, source, offset, bytes).is_err() {
            return println!(self.rt; "  {cannot}");
        }
        println!(self.rt; "  {reads}:{}", Bytes(bytes))
    }

    // Prints all faults in their parts.
    fn print_faults(&self) -> io::Result<()> {
        println!(self.rt; "  Fault log:")?;
        for fault in self.faults.iter() {
            println!(self.rt; "    {fault}")?;
        }
        println!(self.rt; "")
    }
}
