// Tests of a store: its load calls and its operators.
#![tactic(auto)]

#[cfg(test)]
mod tests {
    use bank::{CodedBank, PlainBank};
    use rules::{Answer, Call, Fault, Load, Operator, slot, slot_of};
    use std::test::Fail;
    use store::{SMALLEST_BANK, Store};

    // The number of the fault; a whole fault would compare its reason and not the number.
    fn number_of<T: Drop>(answer: Result<T, Fault>) -> Option<u8> {
        answer.err().map(|fault| fault.reason.number())
    }

    // The parts of the fault but its layer, by number for the same reason.
    fn parts_of<T: Drop>(answer: Result<T, Fault>) -> Option<(u8, u32, u8, u16)> {
        answer.err().map(|fault| (
            fault.reason.number(),
            fault.task,
            fault.place,
            fault.selector,
        ))
    }

    // The lines of the crate's own example.
    #[test]
    fn one_task_writes_and_another_reads(rt: HostRuntime) -> Result<(), Fail> {
        let mut memory = [0u8; SMALLEST_BANK];
        let mut store = Store::new(PlainBank::new(&mut memory));
        store.task(1, 4)?;
        store.task(2, 4)?;
        let record = store.place(0, 8, 0, 0)?;
        store.grant(1, 0, 0, 0, record, 3)?;
        store.grant(2, 0, 0, 0, record, 1)?;
        assert_eq!(rt; (store.is_sealed(), store.level(2)), (false, 1));
        store.seal()?;
        store.write(1, slot(0), 2, &[7, 8])?;
        let mut buffer = [0u8; 4];
        store.read(2, slot(0), 0, &mut buffer)?;
        assert_eq!(rt; buffer, [0, 0, 7, 8]);
        assert_eq!(rt; (store.is_sealed(), store.level(3)), (true, 0));
        assert_eq!(rt;
            parts_of(store.write(2, slot(0), 2, &[7, 8])),
            Some((9, 2, 1, 0))
        );
        Ok(())
    }

    #[test]
    fn calls_are_performed_by_their_values(rt: HostRuntime) -> Result<(), Fail> {
        let mut memory = vec![in rt.alloc(); 0u16; SMALLEST_BANK]?;
        let mut store = Store::new(CodedBank::new(memory.as_mut_slice()));
        let mut buffer = [5u8, 6];
        let task = Call::Load(Load::Task {
            number: 1,
            slots: 4,
        });
        assert_eq!(rt; store.perform(task, &mut buffer), Ok(Answer::Index(0)));
        assert_eq!(rt;
            store.perform(Call::Load(Load::Seal), &mut []),
            Ok(Answer::Done)
        );
        let create = Operator::Create {
            destination: slot(1),
            size: 4,
            slots: 0,
        };
        let write = Operator::Write {
            source: slot(1),
            offset: 1,
        };
        let read = Operator::Read {
            source: slot(1),
            offset: 0,
        };
        let mut left = [9u8, 9];
        for (operator, answer) in [(create, Answer::Done), (write, Answer::Done)] {
            let call = Call::Operator { task: 1, operator };
            assert_eq!(rt; store.perform(call, &mut buffer), Ok(answer));
        }
        let call = Call::Operator {
            task: 1,
            operator: read,
        };
        assert_eq!(rt; store.perform(call, &mut left), Ok(Answer::Filled));
        assert_eq!(rt; left, [0, 5]);
        Ok(())
    }

    #[test]
    fn a_store_is_printed_by_its_live_entries(rt: HostRuntime) -> Result<(), Fail> {
        let mut memory = [0u8; 4];
        let store = Store::new(PlainBank::new(&mut memory));
        let text = format!(in rt.alloc(); "{store:?}")?;
        assert!(rt; text.contains("Table { entries: [], claim: 0 }"));
        assert!(rt; text.contains("Stack { contexts: [] }"));
        assert!(rt; text.contains("sealed: false"));
        assert!(rt; text.contains("bank_size: 4"));
        Ok(())
    }

    #[test]
    fn a_grant_writes_its_word(rt: HostRuntime) -> Result<(), Fail> {
        let mut memory = vec![in rt.alloc(); 0xaau8; 18432]?;
        {
            let mut store = Store::new(PlainBank::new(memory.as_mut_slice()));
            assert!(rt; store.task(1, 4).is_ok());
            assert!(rt; store.place(1, 2, 0, 0).is_ok());
            assert!(rt; store.grant(1, 0, 0, 1, 1, 3).is_ok());
        }
        assert_eq!(rt; memory.len(), 18432);
        assert_eq!(rt;
            memory.get(2059..2067),
            Some([0, 0x01, 0x10, 0x00, 0x07, 0, 0, 0xaa].as_slice())
        );
        Ok(())
    }

    #[test]
    fn load_calls_are_refused_by_number(rt: HostRuntime) -> Result<(), Fail> {
        let mut memory = vec![in rt.alloc(); 0u8; 18432]?;
        let mut store = Store::new(PlainBank::new(memory.as_mut_slice()));
        assert_eq!(rt; number_of(store.place(9, 0, 0, 0)), Some(12));
        assert_eq!(rt; number_of(store.task(9, 4)), Some(3));
        assert_eq!(rt; number_of(store.task(2, 65)), Some(12));
        assert!(rt; store.task(2, 64).is_ok());
        assert_eq!(rt; number_of(store.task(2, 64)), Some(3));
        assert_eq!(rt; number_of(store.place(2, 1793, 0, 0)), Some(14));
        assert_eq!(rt; number_of(store.grant(2, 0, 0, 2, 0, 1)), Some(10));
        assert!(rt; store.fill(2, 0, 0, &[]).is_ok());
        assert_eq!(rt; number_of(store.fill(2, 0, 0, &[1])), Some(12));
        assert!(rt; store.seal().is_ok());
        assert_eq!(rt; number_of(store.seal()), Some(2));
        Ok(())
    }

    #[test]
    fn a_small_bank_refuses_all(rt: HostRuntime) -> Result<(), Fail> {
        let mut memory = vec![in rt.alloc(); 0u8; 18431]?;
        let mut store = Store::new(PlainBank::new(memory.as_mut_slice()));
        assert_eq!(rt; number_of(store.seal()), Some(1));
        assert_eq!(rt; number_of(store.task(1, 4)), Some(1));
        Ok(())
    }

    #[test]
    fn operators_answer_and_fault_in_all_parts(rt: HostRuntime) -> Result<(), Fail> {
        let mut memory = vec![in rt.alloc(); 0xaau8; 18432]?;
        let mut store = Store::new(PlainBank::new(memory.as_mut_slice()));
        assert!(rt; store.task(1, 4).is_ok());
        assert!(rt; store.place(1, 2, 0, 0).is_ok());
        assert!(rt; store.grant(1, 0, 0, 1, 1, 3).is_ok());
        assert_eq!(rt; parts_of(store.null(1, slot(0))), Some((2, 1, 0, 0)));
        assert!(rt; store.seal().is_ok());
        assert!(rt; store.write(1, slot(0), 1, &[7]).is_ok());
        let mut buffer = [9u8, 9];
        assert!(rt; store.read(1, slot(0), 0, &mut buffer).is_ok());
        assert_eq!(rt; buffer, [0, 7]);
        assert_eq!(rt;
            parts_of(store.read(1, slot(0), 1, &mut buffer)),
            Some((12, 1, 0, 0))
        );
        assert_eq!(rt; buffer, [0, 7]);
        assert_eq!(rt; parts_of(store.null(1, slot(0))), Some((11, 1, 1, 0)));
        assert_eq!(rt;
            parts_of(store.copy(1, slot(0), slot_of(1, 1))),
            Some((5, 1, 2, 5))
        );
        assert_eq!(rt; parts_of(store.look(1, slot(1))), Some((8, 1, 1, 4)));
        assert_eq!(rt;
            parts_of(store.typed(1, slot(0), slot(1), 1, 1)),
            Some((9, 1, 1, 0))
        );
        assert_eq!(rt; parts_of(store.call(2, slot(0), 4)), Some((3, 2, 0, 0)));
        assert_eq!(rt;
            parts_of(store.return_result(1, slot(0))),
            Some((4, 1, 0, 0))
        );
        Ok(())
    }

    #[test]
    fn a_created_object_ends_with_its_level(rt: HostRuntime) -> Result<(), Fail> {
        let mut memory = vec![in rt.alloc(); 0u16; 18432]?;
        let mut store = Store::new(CodedBank::new(memory.as_mut_slice()));
        assert!(rt; store.task(3, 8).is_ok());
        assert!(rt; store.seal().is_ok());
        assert!(rt; store.call(3, slot(0), 4).is_ok());
        assert!(rt; store.create(3, slot(1), 10, 1).is_ok());
        assert!(rt; store.restrict(3, slot(1), slot(2), 3).is_ok());
        assert!(rt; store.refine(3, slot(2), slot(3), 2, 3, 0, 1).is_ok());
        assert_eq!(rt; store.see(3, slot(2)), Ok(Some((3, 2, 3))));
        assert_eq!(rt; store.see(3, slot(3)), Ok(Some((3, 3, 3))));
        assert_eq!(rt; store.look(3, slot(3)), Ok((0, 3, 1, 2)));
        assert_eq!(rt;
            parts_of(store.return_result(3, slot(1))),
            Some((13, 3, 0, 0))
        );
        assert!(rt; store.return_result(3, slot(0)).is_ok());
        assert_eq!(rt; store.see(3, slot(2)), Ok(None));
        assert!(rt; store.create(3, slot(2), 2000, 0).is_ok());
        assert_eq!(rt; store.see(3, slot(2)), Ok(Some((3, 1, 63))));
        Ok(())
    }

    #[test]
    fn amplify_adds_rights_and_faults_in_all_parts(rt: HostRuntime) -> Result<(), Fail> {
        let mut memory = vec![in rt.alloc(); 0xaau8; 18432]?;
        let mut store = Store::new(PlainBank::new(memory.as_mut_slice()));
        assert!(rt; store.task(1, 8).is_ok());
        assert!(rt; store.place(0, 2, 1, 16).is_ok());
        assert!(rt; store.place(0, 2, 0, 17).is_ok());
        assert!(rt; store.control(0, 16, 36).is_ok());
        assert!(rt; store.grant(1, 0, 0, 0, 2, 8).is_ok());
        assert!(rt; store.grant(1, 0, 1, 0, 0, 3).is_ok());
        assert!(rt; store.grant(1, 0, 2, 0, 1, 3).is_ok());
        assert!(rt; store.grant(1, 0, 3, 0, 2, 55).is_ok());
        assert!(rt; store.seal().is_ok());
        assert!(rt; store.amplify(1, slot(0), slot(1), slot(4)).is_ok());
        assert_eq!(rt; store.see(1, slot(4)), Ok(Some((0, 0, 39))));
        assert_eq!(rt; store.see(1, slot(1)), Ok(Some((0, 0, 3))));
        assert_eq!(rt;
            parts_of(store.amplify(2, slot(0), slot(1), slot(5))),
            Some((3, 2, 0, 0))
        );
        assert_eq!(rt;
            parts_of(store.amplify(1, slot(3), slot(1), slot(5))),
            Some((9, 1, 1, 12))
        );
        assert_eq!(rt;
            parts_of(store.amplify(1, slot(1), slot(1), slot(5))),
            Some((9, 1, 1, 4))
        );
        assert_eq!(rt;
            parts_of(store.amplify(1, slot(0), slot(6), slot(5))),
            Some((8, 1, 2, 24))
        );
        assert_eq!(rt;
            parts_of(store.amplify(1, slot(0), slot(2), slot(5))),
            Some((10, 1, 2, 8))
        );
        assert_eq!(rt;
            parts_of(store.amplify(1, slot(0), slot(1), slot(2))),
            Some((11, 1, 3, 8))
        );
        assert_eq!(rt; store.see(1, slot(5)), Ok(None));
        Ok(())
    }

    #[test]
    fn amplify_keeps_levels_apart(rt: HostRuntime) -> Result<(), Fail> {
        let mut memory = vec![in rt.alloc(); 0u16; 18432]?;
        let mut store = Store::new(CodedBank::new(memory.as_mut_slice()));
        assert!(rt; store.task(3, 8).is_ok());
        assert!(rt; store.place(0, 0, 2, 0).is_ok());
        assert!(rt; store.control(0, 20, 3).is_ok());
        assert!(rt; store.grant(0, 0, 0, 0, 1, 12).is_ok());
        assert!(rt; store.grant(3, 0, 1, 0, 0, 63).is_ok());
        assert!(rt; store.grant(3, 0, 4, 0, 0, 63).is_ok());
        assert!(rt; store.seal().is_ok());
        assert_eq!(rt;
            parts_of(store.amplify(3, slot(4), slot_of(1, 0), slot(5))),
            Some((10, 3, 1, 16))
        );
        assert!(rt; store.typed(3, slot_of(1, 0), slot(5), 4, 0).is_ok());
        assert!(rt; store.restrict(3, slot(5), slot(6), 0).is_ok());
        assert_eq!(rt;
            parts_of(store.amplify(3, slot_of(1, 0), slot(6), slot_of(1, 1))),
            Some((13, 3, 0, 0))
        );
        assert!(rt; store.amplify(3, slot_of(1, 0), slot(6), slot(7)).is_ok());
        assert_eq!(rt; store.see(3, slot(7)), Ok(Some((3, 1, 3))));
        assert!(rt; store.write(3, slot(7), 3, &[7]).is_ok());
        Ok(())
    }
}
