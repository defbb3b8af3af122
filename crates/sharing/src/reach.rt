// What a set of tasks obtains, reaches and can alter.
ghost use Rattle.rules.specs.State.{level};
ghost use Rattle.sharing.specs.Marks.{Meets, contexts_marked, found_marked, marked, named_marked, tasks_marked};
ghost use Rattle.sharing.specs.Reached.{IsReach, altered_at, reached_at, rights_at};
ghost use Rattle.sharing.specs.Search.{AreTypes, found};
ghost use Rattle.sharing.specs.Sides.{side_of};
ghost use Rattle.std.specs.Prelude.{◌≡◌, ◌↔◌, true};
ghost use Rattle.store.specs.Orderly.{InTables};

use crate::gathering::Gathering;
use crate::position::{PLACES, Position};
use crate::side::Side;
use crate::types::Types;
use bank::Bank;
use rules::{Entry, Right, Rights};
use store::Store;
use tables::TABLES;

/// What a set of tasks obtains, reaches and can alter in a store, entry by entry.
#[derive(Drop)]
pub struct Reach {
    gathering: Gathering,
    reached: [bool; PLACES],
    altered: [bool; PLACES],
}

impl Reach {
    /// What a set of tasks obtains, reaches and can alter. It only reads, and allocates nothing.
    pub fn of<B: Bank>(store: &Store<B>, side: Side) -> Reach
        ensures { IsReach store.now (side_of side) result }
    {
        Reach::by_types(store, &Types::of(store), side)
    }

    // The same, given the entries by their types.
    pub(crate) fn by_types<B: Bank>(store: &Store<B>, types: &Types, side: Side) -> Reach
        requires types { AreTypes store.now types.now 576 }
        requires in_tables { InTables store.now }
        ensures { IsReach store.now (side_of side) result }
    {
        let mut reach = Reach {
            gathering: Gathering::of(store, types, side),
            reached: [false; PLACES],
            altered: [false; PLACES],
        };
        reach.mark_named(store);
        reach.mark_contexts(store, side);
        reach
    }

    // The entries that are obtained, and the objects beneath.
    fn mark_named<B: Bank>(&mut self, store: &Store<B>)
        ensures { self.new ≡ named_marked store.now 576 self.old }
    {
        for number in 0..PLACES {
            self.mark_found(store, Position::numbered(number));
        }
    }

    // The entry at a place, if it is obtained, and the object beneath.
    #[inline(always)]
    fn mark_found<B: Bank>(&mut self, store: &Store<B>, position: Position)
        ensures { self.new
            ≡ found_marked store.now position (found self.old.gathering position) self.old }
    {
        if let Some(rights) = self.gathering.rights[position.number()] {
            let writes = Right::Write.is_in(rights);
            match store.entry(position.table(), position.index()) {
                Some(Entry::Object(_)) => self.mark(position, writes),
                Some(Entry::Refined(part)) => {
                    self.mark(position, false);
                    self.mark(Position::of(part.table as u32, part.index as u32), writes);
                }
                _ => self.mark(position, false),
            }
        }
    }

    // The open contexts of a side.
    fn mark_contexts<B: Bank>(&mut self, store: &Store<B>, side: Side)
        ensures { self.new ≡ tasks_marked store.now side 9 self.old }
    {
        for task in 0..TABLES as u32 {
            if side.has(task) {
                self.mark_contexts_of(store, task);
            }
        }
    }

    // The open contexts of a task.
    fn mark_contexts_of<B: Bank>(&mut self, store: &Store<B>, task: u32)
        ensures { self.new ≡ contexts_marked store.now task (level store.now task) self.old }
    {
        for number in 0..store.level(task) as usize {
            if let Some(context) = store.context(task, number) {
                self.mark(Position::of(task, context.get()), true);
            }
        }
    }

    // An entry is reached, and altered if it is so.
    #[inline(always)]
    fn mark(&mut self, position: Position, alters: bool)
        ensures { self.new ≡ marked position alters self.old }
    {
        self.reached[position.number()] = true;
        if alters {
            self.altered[position.number()] = true;
        }
    }

    /// The rights with which the tasks obtain an entry, all together, or none if they do not obtain
    /// it.
    pub fn rights(&self, table: u32, index: u32) -> Option<Rights>
        ensures { result ≡ rights_at self.now table index }
    {
        if table < TABLES as u32 && index < 64 {
            self.gathering.rights[Position::of(table, index).number()].map(|sum| Rights::low(
                sum as u32,
            ))
        } else {
            None
        }
    }

    /// Whether the tasks reach an entry.
    pub fn reaches(&self, table: u32, index: u32) -> bool
        ensures { result ≡ reached_at self.now table index }
    {
        table < TABLES as u32 && index < 64 && self.reached[Position::of(table, index).number()]
    }

    /// Whether the tasks can alter a storage object.
    pub fn alters(&self, table: u32, index: u32) -> bool
        ensures { result ≡ altered_at self.now table index }
    {
        table < TABLES as u32 && index < 64 && self.altered[Position::of(table, index).number()]
    }

    // Whether an entry is reached by both sides, and can be altered by either.
    pub(crate) fn meets(&self, other: &Reach) -> bool
        ensures { (result ≡ true) ↔ Meets self.now other.now }
    {
        for number in 0..PLACES {
            if self.reached[number]
                && other.reached[number]
                && (self.altered[number] || other.altered[number])
            {
                return true;
            }
        }
        false
    }
}
