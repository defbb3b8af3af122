// Rounds of one kind of work.
use crate::names::Work;
use bank::Bank;
use rules::Fault;
use store::Store;

const LARGEST: usize = 1024;

// Selectors of slots 4, 5, 6, 8 and 9 of the first context, as `load` fills them.
const OBJECT: u16 = 4 * 4;

const CONTROL: u16 = 4 * 5;

const TYPED: u16 = 4 * 6;

const FREE: u16 = 4 * 8;

const NULL: u16 = 4 * 9;

// Of slots 0 and 2 of what its slot 1 names.
const FIRST_INSIDE: u16 = 1;

const THIRD_INSIDE: u16 = 4 * 2 + 1;

// Of slots 0 to 2 of a context that is called.
const ARGUMENT: u16 = 0;

const SECOND: u16 = 4;

const THIRD: u16 = 4 * 2;

// What a round hands over. Its numbers are made of arguments of the program, so that the compiler
// does not know them.
#[derive(Clone, Copy)]
pub(crate) struct Numbers {
    pub(crate) task: u32,
    pub(crate) zero: u32,
}

// The checksum of rounds of a kind of work on a new store over a bank.
pub(crate) fn sum<B: Bank + Drop>(
    bank: B,
    work: Work,
    count: u32,
    numbers: Numbers,
) -> Result<u64, Fault> {
    let mut store = Store::new(bank);
    load(&mut store)?;
    let on = &mut store;
    let zero = numbers.zero;
    match work {
        Work::Copy => rounds(
            on,
            count,
            numbers,
            |store, _, task| store.copy(task, OBJECT, FREE).map(|()| 0),
        ),
        Work::CopyEnv => rounds(
            on,
            count,
            numbers,
            |store, _, task| store.copy(task, FIRST_INSIDE, THIRD_INSIDE).map(|()| 0),
        ),
        Work::Null => rounds(
            on,
            count,
            numbers,
            |store, _, task| store.null(task, NULL).map(|()| 0),
        ),
        Work::Restrict => rounds(on, count, numbers, |store, _, task| {
            store.restrict(task, OBJECT, FREE, zero | 35).map(|()| 0)
        }),
        Work::Amplify => rounds(on, count, numbers, |store, _, task| {
            store.amplify(task, CONTROL, TYPED, FREE).map(|()| 0)
        }),
        Work::Read(length) => rounds(on, count, numbers, |store, buffer, task| {
            let run = &mut buffer[..length.min(LARGEST)];
            store.read(task, OBJECT, zero, run).map(|()| 0)
        }),
        Work::Write(length) => rounds(on, count, numbers, |store, buffer, task| {
            let run = &buffer[..length.min(LARGEST)];
            store.write(task, OBJECT, zero, run).map(|()| 0)
        }),
        Work::See => rounds(on, count, numbers, |store, _, task| {
            store.see(task, OBJECT).map(|seen| seen.is_some() as u64)
        }),
        Work::Look => rounds(on, count, numbers, |store, _, task| {
            store.look(task, OBJECT).map(|_| 1)
        }),
        Work::CallReturn => rounds(on, count, numbers, |store, _, task| {
            store.call(task, OBJECT, zero | 4)?;
            store.return_result(task, SECOND).map(|()| 0)
        }),
        Work::CallCreateReturn => rounds(on, count, numbers, |store, _, task| {
            store.call(task, OBJECT, zero | 4)?;
            store.create(task, SECOND, zero | 8, zero | 1)?;
            store.return_result(task, THIRD).map(|()| 0)
        }),
        Work::CallTypedReturn => rounds(on, count, numbers, |store, _, task| {
            store.call(task, CONTROL, zero | 4)?;
            store.typed(task, ARGUMENT, SECOND, zero | 8, zero | 1)?;
            store.return_result(task, THIRD).map(|()| 0)
        }),
        Work::CallRefineReturn => rounds(on, count, numbers, |store, _, task| {
            store.call(task, OBJECT, zero | 4)?;
            store.refine(
                task,
                ARGUMENT,
                SECOND,
                zero | 4,
                zero | 4,
                zero | 1,
                zero | 2,
            )?;
            store.return_result(task, THIRD).map(|()| 0)
        }),
        Work::Fault => rounds(on, count, numbers, |store, buffer, task| {
            let refused = store
                .read(task, OBJECT, zero | 1024, &mut buffer[..1])
                .is_err();
            Ok(refused as u64)
        }),
    }
}

// Task 1 has 16 slots. Its slots 1 and 4 name an object of 1,024 bytes and 8 slots, 5 a control of
// type 16, 6 an object of type 16, 7 the first object for reading only; 8 to 15 are free.
fn load<B: Bank>(store: &mut Store<B>) -> Result<(), Fault> {
    store.task(1, 16)?;
    store.place(0, 1024, 8, 0)?;
    store.place(0, 8, 1, 16)?;
    store.control(0, 16, 3)?;
    store.grant(1, 0, 1, 0, 0, 63)?;
    store.grant(1, 0, 4, 0, 0, 63)?;
    store.grant(1, 0, 5, 0, 2, 63)?;
    store.grant(1, 0, 6, 0, 1, 33)?;
    store.grant(1, 0, 7, 0, 0, 1)?;
    store.grant(0, 0, 0, 0, 0, 63)?;
    store.seal()
}

// Makes rounds of one step by the task, and sums what each answers and a byte of the buffer. The
// task's number is made anew in each round, so that the compiler cannot hoist the step out of the
// loop.
fn rounds<S, F: Fn(&mut S, &mut [u8; LARGEST], u32) -> Result<u64, Fault>>(
    store: &mut S,
    count: u32,
    numbers: Numbers,
    step: F,
) -> Result<u64, Fault>
    requires { F.IsAlwaysCallable step }
{
    let mut buffer = [7u8; LARGEST];
    let mut sum = 0u64;
    for i in 0..count {
        let task = numbers.task | (i & numbers.zero);
        let answered = step(store, &mut buffer, task)?;
        let byte = buffer[i as usize % LARGEST];
        sum = sum
            .wrapping_mul(31)
            .wrapping_add(answered)
            .wrapping_add(byte as u64);
    }
    Ok(sum)
}
