// Random stores, of which each answer is compared with what the rules give.
use crate::dice::{Dice, SLOTS, TASKS};
use crate::naive::Told;
use bank::{Bank, PlainBank};
use rules::{Call, Load};
use sharing::{Reach, Side, separate};
use std::alloc::{AllocError, Global};
use std::test::Fail;
use store::{SMALLEST_BANK, Store};

const STORES: u32 = 200;

// Load calls that make an object or a control, and that fill a slot.
const MADE: u32 = 16;

const GRANTS: u32 = 28;

// Calls between two comparisons, and how many comparisons there are.
const CALLS: u32 = 20;

const LOOKS: u32 = 4;

// More entries than there come to be in a table.
const INDICES: u32 = 40;

// Whether a load call was made, which may be refused.
fn load<B: Bank>(store: &mut Store<B>, load: Load) -> bool {
    store.perform(Call::Load(load), &mut []).is_ok()
}

// A sealed store with some tasks, some objects and controls, and some slots filled.
fn load_some<B: Bank>(store: &mut Store<B>, dice: &mut Dice) -> bool {
    for number in 1..=TASKS {
        load(
            store,
            Load::Task {
                number,
                slots: SLOTS,
            },
        );
    }
    for _ in 0..MADE {
        let call = dice.making();
        load(store, call);
    }
    for _ in 0..GRANTS {
        let call = dice.grant();
        load(store, call);
    }
    load(store, Load::Seal)
}

// Whether what is told of a side is what the rules give, of each entry.
fn agrees(reach: &Reach, told: &Told) -> bool {
    for table in 0..9 {
        for index in 0..INDICES {
            let spot = (table, index);
            if reach.rights(table, index) != told.rights(spot)
                || reach.reaches(table, index) != told.reaches(spot)
                || reach.alters(table, index) != told.alters(spot)
            {
                return false;
            }
        }
    }
    true
}

// Whether a task is separate, if all that is told of it and of the others is what the rules give.
fn agreed<B: Bank>(alloc: Global, store: &Store<B>, task: u32) -> Result<Option<bool>, AllocError> {
    let own = Told::of(alloc, store, Side::Only(task))?;
    let theirs = Told::of(alloc, store, Side::Others(task))?;
    let answer = !own.meets(&theirs, store);
    let agrees = agrees(&Reach::of(store, Side::Only(task)), &own)
        && agrees(&Reach::of(store, Side::Others(task)), &theirs)
        && separate(store, task) == Ok(answer);
    Ok(agrees.then_some(answer))
}

// Calls of the tasks, many of which are refused.
fn call_some<B: Bank>(store: &mut Store<B>, dice: &mut Dice) {
    for _ in 0..CALLS {
        let task = dice.task();
        let operator = dice.operator();
        let _ = store.perform(Call::Operator { task, operator }, &mut []);
    }
}

#[test]
fn answers_are_those_of_the_rules(rt: HostRuntime) -> Result<(), Fail> {
    let mut dice = Dice::new(1);
    // how often the answer was yes, and how often no
    let (mut yes, mut no) = (0u32, 0u32);
    for number in 0..STORES {
        let mut memory = vec![in rt.alloc(); 0xaau8; SMALLEST_BANK]?;
        let mut store = Store::new(PlainBank::new(memory.as_mut_slice()));
        assert!(rt; load_some(&mut store, &mut dice), "{number}");
        let mut before = [false; TASKS as usize];
        for look in 0..LOOKS {
            for (before, task) in before.iter_mut().zip(1..=TASKS) {
                let answer = agreed(rt.alloc(), &store, task)?;
                assert!(rt; answer.is_some(), "{number} {look} {task}");
                let answer = answer.unwrap_or(false);
                assert!(rt; answer || !*before, "a yes lasts: {number} {look} {task}");
                *before = answer;
                if answer {
                    yes = yes.saturating_add(1);
                } else {
                    no = no.saturating_add(1);
                }
            }
            call_some(&mut store, &mut dice);
        }
    }
    assert!(rt; yes > 300 && no > 300, "{yes} {no}");
    Ok(())
}
