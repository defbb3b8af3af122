// What a set of tasks obtains, reaches and can alter, by the rules as docs/RULES.md tells them:
// each descriptor by itself, and every rule applied to all that is there until nothing new comes.
use bank::Bank;
use rules::{Descriptor, Entry, Place, Right, Rights, is_valid};
use sharing::Side;
use std::alloc::{AllocError, Global};
use store::Store;

// Where an entry stands: its table and its index there.
pub(crate) type Spot = (u32, u32);

#[derive(Drop)]
pub(crate) struct Told {
    // The words of the descriptors that are obtained.
    words: Vec<u32>,
    reached: Vec<Spot>,
    altered: Vec<Spot>,
}

impl Told {
    pub(crate) fn of<B: Bank>(
        alloc: Global,
        store: &Store<B>,
        side: Side,
    ) -> Result<Told, AllocError> {
        let mut told = Told {
            words: Vec::new(alloc),
            reached: Vec::new(alloc),
            altered: Vec::new(alloc),
        };
        told.begin(store, side)?;
        // as many rounds as there can be descriptors, although few are needed
        for _ in 0..36_864 {
            let before = told.words.len();
            told.extend(store)?;
            if told.words.len() == before {
                break;
            }
        }
        told.spread(store)?;
        Ok(told)
    }

    // The rights of all descriptors of an entry that are obtained.
    pub(crate) fn rights(&self, spot: Spot) -> Option<Rights> {
        let mut sum = None;
        for word in self.words.iter() {
            if spot == spot_of(*word) {
                let rights = Descriptor::from(*word).rights.sum();
                sum = Some(sum.map_or(rights, |sum: u8| sum | rights));
            }
        }
        sum.map(|sum| Rights::low(sum as u32))
    }

    pub(crate) fn reaches(&self, spot: Spot) -> bool {
        self.reached.contains(&spot)
    }

    pub(crate) fn alters(&self, spot: Spot) -> bool {
        self.altered.contains(&spot)
    }

    // Whether a storage object is reached by both and can be altered by either.
    pub(crate) fn meets<B: Bank>(&self, other: &Told, store: &Store<B>) -> bool {
        self.reached.iter().any(|&spot| {
            matches!(store.entry(spot.0, spot.1), Some(Entry::Object(_)))
                && other.reaches(spot)
                && (self.alters(spot) || other.alters(spot))
        })
    }

    // The open contexts, and what stands in their slots.
    fn begin<B: Bank>(&mut self, store: &Store<B>, side: Side) -> Result<(), AllocError> {
        for task in 1..9 {
            if side.has(task) {
                for number in 0..store.level(task) as usize {
                    if let Some(context) = store.context(task, number) {
                        self.reached.push((task, context.get()))?;
                        self.altered.push((task, context.get()))?;
                        self.obtain_slots(store, (task, context.get()))?;
                    }
                }
            }
        }
        Ok(())
    }

    // What follows in one step from what is obtained already.
    fn extend<B: Bank>(&mut self, store: &Store<B>) -> Result<(), AllocError> {
        for number in 0..self.words.len() {
            let Some(word) = self.words.get(number).copied() else {
                break;
            };
            let spot = spot_of(word);
            if has(word, Right::Read) {
                self.obtain_slots(store, spot)?;
            }
            if let Some(Entry::Control(control)) = store.entry(spot.0, spot.1) {
                if has(word, Right::Type2) {
                    self.amplify(store, control.kind.number(), control.rights)?;
                }
            }
        }
        Ok(())
    }

    // Descriptors of a type, with the rights that a control adds.
    fn amplify<B: Bank>(
        &mut self,
        store: &Store<B>,
        kind: u8,
        rights: u8,
    ) -> Result<(), AllocError> {
        for number in 0..self.words.len() {
            let Some(word) = self.words.get(number).copied() else {
                break;
            };
            let (table, index) = spot_of(word);
            if store
                .entry(table, index)
                .is_some_and(|entry| entry.kind().number() == kind)
            {
                self.obtain(joined(word, rights))?;
            }
        }
        Ok(())
    }

    // What stands in the slots that an entry shows.
    fn obtain_slots<B: Bank>(&mut self, store: &Store<B>, spot: Spot) -> Result<(), AllocError> {
        let by = store.shown(spot.0, spot.1);
        for at in 0..by.slots {
            let word = store.word(Place { by, at });
            let (table, index) = spot_of(word);
            if is_valid(word) && store.entry(table, index).is_some() {
                self.obtain(word)?;
            }
        }
        Ok(())
    }

    fn obtain(&mut self, word: u32) -> Result<(), AllocError> {
        if !self.words.contains(&word) {
            self.words.push(word)?;
        }
        Ok(())
    }

    // What is reached and can be altered by what is obtained.
    fn spread<B: Bank>(&mut self, store: &Store<B>) -> Result<(), AllocError> {
        for word in self.words.iter() {
            let spot = spot_of(*word);
            let writes = has(*word, Right::Write);
            self.reached.push(spot)?;
            match store.entry(spot.0, spot.1) {
                Some(Entry::Refined(part)) => {
                    let beneath = (part.table as u32, part.index as u32);
                    self.reached.push(beneath)?;
                    if writes {
                        self.altered.push(beneath)?;
                    }
                }
                Some(Entry::Object(_)) if writes => self.altered.push(spot)?,
                _ => {}
            }
        }
        Ok(())
    }
}

// Whether the descriptor of a word has a right.
fn has(word: u32, right: Right) -> bool {
    Descriptor::from(word).rights.contains(right)
}

// The word of a descriptor, with rights joined to its own.
fn joined(word: u32, rights: u8) -> u32 {
    let descriptor = Descriptor::from(word);
    u32::from(Descriptor {
        table: descriptor.table,
        index: descriptor.index,
        rights: descriptor.rights | Rights::low(rights as u32),
    })
}

fn spot_of(word: u32) -> Spot {
    let descriptor = Descriptor::from(word);
    (descriptor.table.get(), descriptor.index.get())
}
