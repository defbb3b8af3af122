// The memory of both boards, and what stores over it make of requests.
use bank::{Bank, PlainBank};
use runs::{Outcome, Request};
use std::alloc::{AllocError, Global};
use store::SMALLEST_BANK;
use two_chips::TwoChipBank;

// What all memory holds beforehand; a store takes any.
const LEFT: u8 = 165;

// The memory of the first board, and the two chips of the second.
#[derive(Drop)]
pub(crate) struct Boards {
    pub(crate) plain: Vec<u8>,
    pub(crate) first: Vec<u8>,
    pub(crate) second: Vec<u8>,
}

impl Boards {
    pub(crate) fn new(heap: Global) -> Result<Boards, AllocError> {
        Ok(Boards {
            plain: vec![in heap; LEFT; SMALLEST_BANK]?,
            first: vec![in heap; LEFT; SMALLEST_BANK / 2]?,
            second: vec![in heap; LEFT; SMALLEST_BANK / 2]?,
        })
    }

    // The outcomes of requests in a new store over the plain memory.
    pub(crate) fn run_on_plain(
        &mut self,
        heap: Global,
        requests: &[Request<'_>],
    ) -> Result<Vec<Outcome>, AllocError> {
        run(heap, PlainBank::new(self.plain.as_mut_slice()), requests)
    }

    // The same over the two chips.
    pub(crate) fn run_on_chips(
        &mut self,
        heap: Global,
        requests: &[Request<'_>],
    ) -> Result<Vec<Outcome>, AllocError> {
        let first = self.first.as_mut_slice();
        let second = self.second.as_mut_slice();
        run(heap, TwoChipBank::new(first, second), requests)
    }

    // The addresses at which the two chips do not hold what the plain memory holds.
    pub(crate) fn differences(&self, heap: Global) -> Result<Vec<usize>, AllocError> {
        (0..SMALLEST_BANK)
            .filter(|&address| self.on_chips(address) != self.plain.get(address).copied())
            .collect(heap)
    }

    // The byte of an address on the second board: those of even addresses are in the first chip.
    fn on_chips(&self, address: usize) -> Option<u8> {
        let chip = if address % 2 == 0 {
            &self.first
        } else {
            &self.second
        };
        chip.get(address / 2).copied()
    }
}

// The outcomes of requests in a new store, which is dropped then. What it wrote stays in memory.
fn run<B: Bank + Drop>(
    heap: Global,
    bank: B,
    requests: &[Request<'_>],
) -> Result<Vec<Outcome>, AllocError> {
    let mut store = soundness::new_store(bank);
    soundness::run(heap, &mut store, requests)
}
