// The entries of each type.
ghost use Rattle.sharing.specs.Search.{AreTypes};
ghost use Rattle.std.specs.Prelude.{◌≡◌, Some, None, slice_index_or, slice_set};
ghost use Rattle.store.specs.Orderly.{InTables};

use crate::position::{PLACES, Position};
use bank::Bank;
use rules::Kind;
use store::Store;

// How many numbers there are for types.
pub(crate) const TYPES: usize = 256;

// The entries of a store by their types: the first of each type, and after each entry the next of
// its type.
#[derive(Drop)]
pub(crate) struct Types {
    first: [Option<Position>; TYPES],
    next: [Option<Position>; PLACES],
}

impl Types {
    // The entries as they stand, each looked at once.
    pub(crate) fn of<B: Bank>(store: &Store<B>) -> Types
        ensures types { AreTypes store.now result 576 }
        ensures in_tables { InTables store.now }
    {
        let mut types = Types {
            first: [None; TYPES],
            next: [None; PLACES],
        };
        for number in (0..PLACES).rev() {
            let position = Position::numbered(number);
            if let Some(entry) = store.entry(position.table(), position.index()) {
                types.put_first(position, entry.kind());
            }
        }
        types
    }

    // Puts an entry before all others of its type.
    fn put_first(&mut self, position: Position, kind: Kind)
        ensures { self.new ≡ record {
          first = slice_set self.old.first kind (Some position);
          next = slice_set self.old.next position (slice_index_or self.old.first kind None);
        } }
    {
        let kind = kind.number() as usize;
        self.next[position.number()] = self.first[kind];
        self.first[kind] = Some(position);
    }

    // The first entry of a type.
    #[inline(always)]
    pub(crate) fn first(&self, kind: Kind) -> Option<Position>
        ensures { result ≡ slice_index_or self.now.first kind None }
    {
        self.first[kind.number() as usize]
    }

    // The entry of the same type that comes next.
    #[inline(always)]
    pub(crate) fn after(&self, position: Position) -> Option<Position>
        ensures { result ≡ slice_index_or self.now.next position None }
    {
        self.next[position.number()]
    }
}
