// Small missions, and what is told of them.
use bank::PlainBank;
use mission::{read, report, standings};
use std::alloc::{AllocError, Global};
use std::test::Fail;
use store::{SMALLEST_BANK, Store};

// The report of a script.
fn told(heap: Global, text: &str) -> Result<String, AllocError> {
    let mut memory = vec![in heap; 0u8; SMALLEST_BANK]?;
    let mut store = Store::new(PlainBank::new(memory.as_mut_slice()));
    let notes = read(heap, &mut store, text.as_bytes())?;
    let standings = standings(heap, &store)?;
    report(heap, &store, &notes, &standings)
}

const UNSEALED: &str = "do task a b c d e f\ntask 1 4 0 0 0 0 0\n";

#[test]
fn tells_that_a_store_is_not_sealed(rt: HostRuntime) -> Result<(), Fail> {
    let report = told(rt.alloc(), UNSEALED)?;
    assert!(rt; report.as_str().contains("The store is not sealed"));
    Ok(())
}

#[test]
fn refuses_what_is_no_script(rt: HostRuntime) -> Result<(), Fail> {
    let report = told(rt.alloc(), "do task a b c d e\n")?;
    assert!(rt;
        report
            .as_str()
            .contains("  line 1: the first line is not `do task a b c d e f`\n")
    );
    Ok(())
}

const FAULTY: &str = "do task a b c d e f
task 1 4 0 0 0 0 0

place 0 1 2 0 0 0
plase 0 1 2 0 0 0 0
place 0 1 x 0 0 0 0
fill 0 1 1 0 256 0 0
grant 0 1 0 9 0 0 1
seal 0 0 0 0 0 0 0
";

#[test]
fn names_the_lines_that_made_nothing(rt: HostRuntime) -> Result<(), Fail> {
    let report = told(rt.alloc(), FAULTY)?;
    assert!(rt;
        report.as_str().contains(
            "Lines read: 9
Refused: 6
  line 3: the line is empty
  line 4: the line has 7 fields, not 8
  line 5: no call has this word
  line 6: field 4 is no number of one to five digits up to 65535
  line 7: the byte is above 255
  line 8: refused, a number or a run is out of range (fault 12 layer D task 0 place 0 selector 0)
"
        )
    );
    Ok(())
}

const READ_BY_BOTH: &str = "do task a b c d e f
task 1 4 0 0 0 0 0
task 2 4 0 0 0 0 0
place 0 0 8 0 0 0 0
grant 0 1 0 0 0 0 1
grant 0 2 0 0 0 0 1
seal 0 0 0 0 0 0 0
";

#[test]
fn lets_two_tasks_read_an_object(rt: HostRuntime) -> Result<(), Fail> {
    let report = told(rt.alloc(), READ_BY_BOTH)?;
    assert!(rt; report.as_str().contains("  task 1  yes\n  task 2  yes\n"));
    assert!(rt;
        report
            .as_str()
            .contains("  tasks 1 and 2  0.0 (neither can alter it)\n")
    );
    Ok(())
}

// Task 1 comes to the object by two others, task 2 by a refinement in an object of its own.
const CHAINED: &str = "do task a b c d e f
task 1 8 0 0 0 0 0
task 2 8 0 0 0 0 0
place 0 0 4 2 0 0 0
place 0 0 4 2 0 0 0
place 0 0 16 0 0 0 0
grant 0 0 0 1 0 1 1
grant 0 0 1 0 0 2 35
grant 0 1 0 4 0 0 1
grant 0 2 0 4 0 2 35
seal 0 0 0 0 0 0 0
create 2 20 0 3 0 0 0
copy 2 20 4 0 0 0 0
refine 2 16 9 2 4 0 0
null 2 16 0 0 0 0 0
call 2 20 8 0 0 0 0
";

#[test]
fn tells_chains(rt: HostRuntime) -> Result<(), Fail> {
    let report = told(rt.alloc(), CHAINED)?;
    assert!(rt;
        report.as_str().contains(
            "  0.2  object of 16 bytes and 0 slots, placed in line 6
    task 1 can alter it
      task 1: slot 4 of its context -> 0.0 (read) -> slot 1 of 0.0 -> 0.1 (read) -> slot 0 of 0.1 -> 0.2 (read, write, delete)
    task 2 can alter it
      task 2: slot 0 of its context of level 2 -> 2.1 (all rights) -> slot 2 of 2.1 -> 2.2 (read, write, delete) -> beneath it 0.2
"
        )
    );
    Ok(())
}

// Task 2 has the control, and task 3 the object by which it comes to write.
const AMPLIFIED: &str = "do task a b c d e f
task 1 4 0 0 0 0 0
task 2 4 0 0 0 0 0
task 3 4 0 0 0 0 0
control 0 0 30 3 0 0 0
place 0 0 4 2 30 0 0
place 0 0 4 2 0 0 0
grant 0 0 1 1 0 2 3
grant 0 1 0 0 0 2 1
grant 0 2 0 0 0 0 8
grant 0 3 0 0 0 1 0
seal 0 0 0 0 0 0 0
";

#[test]
fn tells_what_tasks_can_do_together(rt: HostRuntime) -> Result<(), Fail> {
    let report = told(rt.alloc(), AMPLIFIED)?;
    assert!(rt;
        report.as_str().contains(
            "  task 1  no, 1 object stands in the way
  task 2  yes
  task 3  yes
"
        )
    );
    assert!(rt;
        report.as_str().contains(
            "    task 1 reaches it
      task 1: slot 0 of its context -> 0.2 (read)
    other tasks together can alter it
      task 3: slot 0 of its context -> 0.1 (no rights) -> by control 0.0 -> 0.1 (read, write) -> slot 1 of 0.1 -> 0.2 (read, write)
      task 2: slot 0 of its context -> 0.0 (type right 2)
"
        )
    );
    Ok(())
}
