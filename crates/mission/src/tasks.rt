// What the tasks of a store reach, and what stands in the way of those that are not separate.
ghost use Rattle.mission.specs.Obstacles.{AreBetween, between};
ghost use Rattle.mission.specs.Standings.{IsStanding};
ghost use Rattle.std.specs.Prelude.{◌≡◌, ◌+◌, ◌++◌, All, IfOk, option_to_list};

use crate::chain::{Step, chains};
use bank::Bank;
use rules::Fault;
use sharing::{Reach, Side, separate};
use std::alloc::{AllocError, Global};
use store::Store;
use tables::{ENTRIES, TABLES};

/// A storage object that a task and the others reach, and that one of them can alter.
#[derive(Clone, Copy, Debug, PartialEq, Eq)]
pub struct Obstacle {
    /// The table of the object.
    pub table: u32,
    /// Its index there.
    pub index: u32,
    /// Whether the task can alter it.
    pub own: bool,
    /// Whether the others, all together, can alter it.
    pub others: bool,
}

/// What there is to tell of a task.
#[derive(Drop)]
pub struct Standing {
    /// The task.
    pub task: u32,
    /// Whether it is separate, or why the question has no answer.
    pub separate: Result<bool, Fault>,
    /// What it reaches.
    pub own: Reach,
    /// How it comes to what it obtains.
    pub own_steps: Vec<Step>,
    /// How the others come to what they obtain, all together.
    pub other_steps: Vec<Step>,
    /// What stands in its way.
    pub obstacles: Vec<Obstacle>,
}

/// What there is to tell of each task that is loaded.
pub fn standings<B: Bank>(heap: Global, store: &Store<B>) -> Result<Vec<Standing>, AllocError>
    ensures { IfOk result (λ v. All (IsStanding store.now) v.items) }
{
    let mut standings = Vec::new(heap);
    for task in 1..TABLES as u32 {
        if store.level(task) > 0 {
            standings.push(of_task(heap, store, task)?)?;
        }
    }
    Ok(standings)
}

// What there is to tell of a task.
fn of_task<B: Bank>(heap: Global, store: &Store<B>, task: u32) -> Result<Standing, AllocError>
    ensures { IfOk result (IsStanding store.now) }
{
    let own = Reach::of(store, Side::Only(task));
    let others = Reach::of(store, Side::Others(task));
    let obstacles = obstacles(heap, &own, &others)?;
    Ok(Standing {
        task,
        separate: separate(store, task),
        own,
        own_steps: chains(heap, store, Side::Only(task))?,
        other_steps: chains(heap, store, Side::Others(task))?,
        obstacles,
    })
}

// What two sides reach and either can alter.
fn obstacles(heap: Global, own: &Reach, others: &Reach) -> Result<Vec<Obstacle>, AllocError>
    ensures { IfOk result (λ v. AreBetween own.now others.now 9 0 v.items) }
{
    let mut found = Vec::new(heap);
    for table in 0..TABLES as u32 {
        take_table(&mut found, own, others, table)?;
    }
    Ok(found)
}

// Those of a table.
fn take_table(
    found: &mut Vec<Obstacle>,
    own: &Reach,
    others: &Reach,
    table: u32,
) -> Result<(), AllocError>
    requires { AreBetween own.now others.now table 0 found.old.items }
    ensures { IfOk result (λ _. AreBetween own.now others.now (table + 1) 0 found.new.items) }
{
    for index in 0..ENTRIES as u32 {
        take_entry(found, own, others, table, index)?;
    }
    Ok(())
}

// The entry of an index, if it is one of those.
fn take_entry(
    found: &mut Vec<Obstacle>,
    own: &Reach,
    others: &Reach,
    table: u32,
    index: u32,
) -> Result<(), AllocError>
    ensures { IfOk result (λ _.
        found.new.items
        ≡ found.old.items ++ option_to_list (between own.now others.now table index)) }
{
    match obstacle_at(own, others, table, index) {
        Some(obstacle) => {
            found.push(obstacle)?;
            Ok(())
        }
        None => Ok(()),
    }
}

// An entry, if two sides reach it and either can alter it.
fn obstacle_at(own: &Reach, others: &Reach, table: u32, index: u32) -> Option<Obstacle>
    ensures { result ≡ between own.now others.now table index }
{
    let alters = own.alters(table, index);
    let is_altered = others.alters(table, index);
    if own.reaches(table, index) && others.reaches(table, index) && (alters || is_altered) {
        Some(Obstacle {
            table,
            index,
            own: alters,
            others: is_altered,
        })
    } else {
        None
    }
}
