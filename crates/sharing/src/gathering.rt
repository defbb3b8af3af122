// How all that a set of tasks obtains is found: one entry after the other leads on to others.
ghost use Rattle.rules.specs.State.{held, level, named, shown, stack};
ghost use Rattle.sharing.specs.Reached.{place};
ghost use Rattle.sharing.specs.Search.{AreTypes, IsListed, all_taken, all_widened, amplified, at, contexts_taken, entry_widened, followed_by, found, gathered, key as key_of, last_of, named_taken, slots_taken, starts, taken, tasks_taken};
ghost use Rattle.std.specs.Prelude.{◌≡◌, ◌<◌, Some, length, true};

use crate::position::{PLACES, Position};
use crate::side::Side;
use crate::types::{TYPES, Types};
use bank::Bank;
use rules::{Descriptor, Entry, Kind, Place, Right, Shown, TypeControl, is_valid};
use store::Store;
use tables::{PaddedList, TABLES};

// The right by which an entry leads on: a type control adds rights by type right 2, and anything
// else shows its slots by the right to read.
fn key(entry: Entry) -> Right
    ensures { result ≡ key_of entry }
{
    match entry {
        Entry::Control(_) => Right::Type2,
        Entry::Object(_) | Entry::Refined(_) => Right::Read,
    }
}

// What has been found to be obtained so far.
#[derive(Drop)]
pub(crate) struct Gathering {
    // For each place the rights, if an entry there is obtained.
    pub(crate) rights: [Option<u8>; PLACES],
    // For each type the rights that obtained type controls add.
    added: [u8; TYPES],
    // The entries that are obtained with the right by which they lead on, as they were found.
    leads: PaddedList<Position, PLACES>,
}

impl Gathering {
    // All that a side obtains. Each entry leads on once.
    #[tactic(auto, unfolding(crate::specs::Search::searched, crate::specs::Search::gathered))]
    pub(crate) fn of<B: Bank>(store: &Store<B>, types: &Types, side: Side) -> Gathering
        requires { AreTypes store.now types.now 576 }
        ensures { result ≡ gathered store.now side }
    {
        let mut gathering = Gathering {
            rights: [None; PLACES],
            added: [0; TYPES],
            leads: PaddedList::new(),
        };
        gathering.take_contexts(store, side);
        for step in 0..PLACES {
            let Some(position) = gathering.leads.get(step) else {
                break;
            };
            gathering.follow(store, types, position);
        }
        gathering
    }

    // What the open contexts of a side hold.
    #[tactic(auto, unfolding(crate::specs::Search::tasks_taken))]
    fn take_contexts<B: Bank>(&mut self, store: &Store<B>, side: Side)
        requires { IsListed store.now self.old }
        ensures value { self.new ≡ tasks_taken store.now side 9 self.old }
        ensures listed { IsListed store.now self.new }
    {
        for task in 0..TABLES as u32 {
            if side.has(task) {
                self.take_contexts_of(store, task);
            }
        }
    }

    // What the open contexts of a task hold.
    #[tactic(auto, unfolding(crate::specs::Search::contexts_taken))]
    fn take_contexts_of<B: Bank>(&mut self, store: &Store<B>, task: u32)
        requires { IsListed store.now self.old }
        ensures value { self.new ≡ contexts_taken store.now task (level store.now task) self.old }
        ensures listed { IsListed store.now self.new }
    {
        for number in 0..store.level(task) as usize {
            if let Some(context) = store.context(task, number) {
                self.take_slots(store, store.shown(task, context.get()));
            }
        }
    }

    // What slots hold that are shown.
    #[tactic(auto, unfolding(crate::specs::Search::slots_taken))]
    fn take_slots<B: Bank>(&mut self, store: &Store<B>, by: Shown)
        requires { IsListed store.now self.old }
        ensures value { self.new ≡ slots_taken store.now by by.slots self.old }
        ensures listed { IsListed store.now self.new }
    {
        for at in 0..by.slots {
            self.take_word(store, store.word(Place { by, at }));
        }
    }

    // What a word names, if it names an entry.
    #[inline(always)]
    #[tactic(auto, unfolding(rules::specs::State::named))]
    fn take_word<B: Bank>(&mut self, store: &Store<B>, word: u32)
        requires { IsListed store.now self.old }
        ensures value { self.new ≡ named_taken store.now (named store.now word) self.old }
        ensures listed { IsListed store.now self.new }
    {
        if !is_valid(word) {
            return;
        }
        let named = Descriptor::from(word);
        if let Some(entry) = store.entry(named.table.get(), named.index.get()) {
            let position = Position::of(named.table.get(), named.index.get());
            self.take(position, entry, named.rights.sum());
        }
    }

    // Takes up that an entry is obtained with these rights, and with those that are added to its
    // type. If it comes to lead on by them, it is put behind the others that do.
    #[tactic(auto, unfolding(crate::specs::Search::taken))]
    fn take(&mut self, position: Position, entry: Entry, rights: u8)
        requires { starts self.old position entry rights ≡ true → length self.old.leads < 576 }
        ensures { self.new ≡ taken position entry rights self.old }
    {
        let number = position.number();
        let before = self.rights[number].unwrap_or(0);
        let rights = before | rights | self.added[entry.kind().number() as usize];
        self.rights[number] = Some(rights);
        let key = key(entry);
        if key.is_in(rights) && !key.is_in(before) {
            self.leads.push(position);
        }
    }

    // Takes up what an entry leads to.
    fn follow<B: Bank>(&mut self, store: &Store<B>, types: &Types, position: Position)
        requires types { AreTypes store.now types.now 576 }
        requires listed { IsListed store.now self.old }
        ensures value { self.new
            ≡ followed_by store.now position (at store.now position) self.old }
        ensures listed { IsListed store.now self.new }
    {
        let (table, index) = (position.table(), position.index());
        match store.entry(table, index) {
            Some(Entry::Control(control)) => self.amplify(store, types, control),
            _ => self.take_slots(store, store.shown(table, index)),
        }
    }

    // Adds the rights of a type control to all obtained entries of its type. If others have added
    // them already, nothing is left to do.
    fn amplify<B: Bank>(&mut self, store: &Store<B>, types: &Types, control: TypeControl)
        requires types { AreTypes store.now types.now 576 }
        requires listed { IsListed store.now self.old }
        ensures value { self.new ≡ amplified store.now control self.old }
        ensures listed { IsListed store.now self.new }
    {
        let kind = control.kind.number() as usize;
        let rights = self.added[kind] | control.rights;
        if rights != self.added[kind] {
            self.added[kind] = rights;
            self.widen_all(store, types, control.kind);
        }
    }

    // Takes up the rights that are added to a type, for all obtained entries of the type.
    fn widen_all<B: Bank>(&mut self, store: &Store<B>, types: &Types, kind: Kind)
        requires types { AreTypes store.now types.now 576 }
        requires listed { IsListed store.now self.old }
        ensures value { self.new ≡ all_widened store.now (last_of store.now kind 576) self.old }
        ensures listed { IsListed store.now self.new }
    {
        let mut next = types.first(kind);
        while let Some(position) = next {
            self.widen(store, position);
            next = types.after(position);
        }
    }

    // Takes up the rights that are added to the type of an entry, if it is obtained.
    fn widen<B: Bank>(&mut self, store: &Store<B>, position: Position)
        requires { IsListed store.now self.old }
        ensures value { self.new
            ≡ entry_widened position (at store.now position) (found self.old position) self.old }
        ensures listed { IsListed store.now self.new }
    {
        if self.rights[position.number()].is_some() {
            if let Some(entry) = store.entry(position.table(), position.index()) {
                self.take(position, entry, 0);
            }
        }
    }
}
