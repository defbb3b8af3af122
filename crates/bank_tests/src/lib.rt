// Tests of the banks and of the Hamming code.
#![tactic(auto)]

ghost use Rattle.std.specs.Prelude.{◌<◌};

#[cfg(test)]
mod tests {
    use bank::{Bank, CodedBank, LentBank, PlainBank, Unit};
    use bank_runs::{Call, Change, Query, Request};
    use std::alloc::AllocError;
    use std::process::Abort;
    use std::test::Fail;
    use two_chips::TwoChipBank;

    const SIZES: [(usize, u32); 5] = [
        (0, 0),
        (1, 1),
        (65535, 65535),
        (65536, 65536),
        (65600, 65536),
    ];

    #[test]
    fn code_words_of_three_bytes(rt: HostRuntime) {
        assert_eq!(rt; hamming::encode(0x01), 0x007);
        assert_eq!(rt; hamming::encode(0x80), 0x888);
        assert_eq!(rt; hamming::encode(0xff), 0xf77);
    }

    #[test]
    fn words_that_are_no_code_words(rt: HostRuntime) {
        assert_eq!(rt; hamming::decode(0x006), 0x01);
        assert_eq!(rt; hamming::decode(0x801), 0x80);
        assert_eq!(rt; hamming::decode(0xf006), 0x01);
    }

    // The last byte of each bank is written and read; the address behind it is not there.
    fn edge<B: Bank>(rt: &impl Abort, bank: &mut B, size: u32) {
        assert_eq!(rt; bank.size(), size);
        bank.write(size, 7);
        assert_eq!(rt; bank.read(size), 0);
        assert_eq!(rt; bank.read(u32::MAX), 0);
        if size > 0 {
            bank.write(size - 1, 9);
            assert_eq!(rt; bank.read(size - 1), 9);
        }
    }

    fn sizes<U: Unit>(rt: &(impl Abort + AllocGlobal)) -> Result<(), Fail> {
        for (units, size) in SIZES {
            let mut memory = vec![in rt.alloc(); U::encode(0); units]?;
            edge(rt, &mut LentBank::new(memory.as_mut_slice()), size);
        }
        Ok(())
    }

    #[test]
    fn a_bank_prints_its_size(rt: HostRuntime) -> Result<(), Fail> {
        let mut memory = [7u16; 4];
        let text = format!(in rt.alloc(); "{:?}", CodedBank::new(&mut memory))?;
        assert_eq!(rt; text.as_str(), "LentBank { size: 4 }");
        Ok(())
    }

    #[test]
    fn sizes_of_plain_banks(rt: HostRuntime) -> Result<(), Fail> {
        sizes::<u8>(&rt)
    }

    #[test]
    fn sizes_of_coded_banks(rt: HostRuntime) -> Result<(), Fail> {
        sizes::<u16>(&rt)
    }

    // The lengths of the first chip and of the second, and the size of the bank.
    const CHIPS: [(usize, usize, u32); 8] = [
        (0, 0, 0),
        (7, 0, 0),
        (1, 1, 2),
        (3, 5, 6),
        (5, 3, 6),
        (32767, 40000, 65534),
        (32768, 32768, 65536),
        (32800, 40000, 65536),
    ];

    #[test]
    fn sizes_of_banks_over_two_chips(rt: HostRuntime) -> Result<(), Fail> {
        for (first, second, size) in CHIPS {
            let mut first = vec![in rt.alloc(); 0; first]?;
            let mut second = vec![in rt.alloc(); 0; second]?;
            edge(
                &rt,
                &mut TwoChipBank::new(first.as_mut_slice(), second.as_mut_slice()),
                size,
            );
        }
        Ok(())
    }

    // The bytes go to the chips by turns, and the longer chip keeps its rest.
    #[test]
    fn what_each_chip_holds(rt: HostRuntime) {
        let mut first = [9; 3];
        let mut second = [8; 5];
        let mut bank = TwoChipBank::new(&mut first, &mut second);
        bank.write_run(1, &[1, 2, 3, 4, 5, 6, 7]);
        bank.write(0, 10);
        assert_eq!(rt; bank.read_word(1), 0x04030201);
        drop(bank);
        assert_eq!(rt; first, [10, 2, 4]);
        assert_eq!(rt; second, [1, 3, 5, 8, 8]);
    }

    #[test]
    fn a_bank_over_two_chips_prints_its_size(rt: HostRuntime) -> Result<(), Fail> {
        let mut first = [0; 2];
        let mut second = [0; 3];
        let text = format!(in rt.alloc(); "{:?}", TwoChipBank::new(&mut first, &mut second))?;
        assert_eq!(rt; text.as_str(), "TwoChipBank { size: 4 }");
        Ok(())
    }

    // A run that lies partly beyond the size, and one that lies wholly beyond it.
    fn runs<B: Bank>(rt: &impl Abort, bank: &mut B) {
        bank.write_run(2, &[1, 2, 3]);
        bank.write_run(u32::MAX, &[8, 8]);
        let mut out = [9; 5];
        bank.read_run(1, &mut out);
        assert_eq!(rt; out, [0, 1, 2, 0, 0]);
        bank.read_run(u32::MAX - 1, &mut out);
        assert_eq!(rt; out, [0, 0, 0, 0, 0]);
    }

    #[test]
    fn runs_of_a_plain_bank(rt: HostRuntime) {
        let mut memory = [0; 4];
        runs(&rt, &mut PlainBank::new(&mut memory));
    }

    #[test]
    fn runs_of_a_coded_bank(rt: HostRuntime) {
        let mut memory = [0; 4];
        runs(&rt, &mut CodedBank::new(&mut memory));
    }

    #[test]
    fn runs_of_a_bank_over_two_chips(rt: HostRuntime) {
        let mut first = [0; 2];
        let mut second = [0; 2];
        runs(&rt, &mut TwoChipBank::new(&mut first, &mut second));
    }

    const CALLS: usize = 4000;

    // How long a random run is at most, and how many bytes the first call reads.
    const RUN: usize = 301;

    // Numbers that look random and are the same in every run.
    #[derive(Drop)]
    struct Dice {
        state: u32,
    }

    impl Dice {
        // A number below n, or 0 where n is 0; n is at most 65,536.
        fn below(&mut self, n: u32) -> u32
            ensures { 0 < n → result < n }
        {
            self.state = self
                .state
                .wrapping_mul(1_664_525)
                .wrapping_add(1_013_904_223);
            (self.state >> 16) % n.max(1)
        }

        // An address in a bank, at either end of it, beyond it, or among the last that there are.
        fn address(&mut self, size: u32) -> u32 {
            match self.below(6) {
                0 => 0,
                1 => size.saturating_sub(self.below(RUN as u32)),
                2 => size.saturating_add(self.below(99)),
                3 => u32::MAX.saturating_sub(self.below(99)),
                _ => self.below(size),
            }
        }

        fn call(&mut self, size: u32) -> Call {
            let address = self.address(size);
            match self.below(8) {
                0 => Call::Query(Query::Size),
                1 => Call::Query(Query::Read { address }),
                2 => Call::Query(Query::ReadRun { address }),
                3 => Call::Query(Query::ReadWord { address }),
                4 => Call::Change(Change::Write {
                    address,
                    byte: self.below(256) as u8,
                }),
                5 => Call::Change(Change::WriteRun { address }),
                6 => Call::Change(Change::ClearRun {
                    address,
                    count: self.below(RUN as u32),
                }),
                _ => Call::Change(Change::WriteWord {
                    address,
                    word: self.below(65536) * 65536 + self.below(65536),
                }),
            }
        }
    }

    // The first bytes are read, and then random calls are made.
    fn requests<'a>(
        rt: &impl AllocGlobal,
        dice: &mut Dice,
        size: u32,
        bytes: &'a [u8; RUN],
    ) -> Result<Vec<Request<'a>>, AllocError> {
        let mut requests = vec![in rt.alloc();
            Request {
                call: Call::Query(Query::ReadRun { address: 0 }),
                bytes,
            },
        ]?;
        for _ in 0..CALLS {
            requests.push(Request {
                call: dice.call(size),
                bytes: &bytes[..dice.below(RUN as u32 + 1) as usize],
            })?;
        }
        Ok(requests)
    }

    // Two banks of equal bytes are told apart once a byte of one of them is another.
    fn pair<A: Bank, B: Bank>(
        rt: &(impl Abort + AllocGlobal),
        left: &mut A,
        right: &mut B,
    ) -> Result<(), Fail> {
        let mut dice = Dice { state: 1 };
        let mut bytes = [0; RUN];
        for byte in &mut bytes {
            *byte = dice.below(256) as u8;
        }
        let requests = requests(rt, &mut dice, left.size(), &bytes)?;
        assert!(rt; !bank_runs::differ(rt.alloc(), left, right, &requests)?);
        left.write(5, 1);
        right.write(5, 2);
        assert!(rt; bank_runs::differ(rt.alloc(), left, right, &requests)?);
        Ok(())
    }

    #[test]
    fn a_plain_bank_and_a_coded_one(rt: HostRuntime) -> Result<(), Fail> {
        let mut plain = [0; 999];
        let mut coded = [0; 999];
        pair(
            &rt,
            &mut PlainBank::new(&mut plain),
            &mut CodedBank::new(&mut coded),
        )
    }
    // A chip that is longer makes no difference.
    #[test]
    fn a_plain_bank_and_one_over_two_chips(rt: HostRuntime) -> Result<(), Fail> {
        let mut plain = [0; 1000];
        let mut first = [0; 500];
        let mut second = [0; 507];
        pair(
            &rt,
            &mut PlainBank::new(&mut plain),
            &mut TwoChipBank::new(&mut first, &mut second),
        )
    }
}
