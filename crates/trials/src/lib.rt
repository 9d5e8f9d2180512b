// Examples, run: memory as a table finds it, windows over windows, journals of several sizes, items that are refused, and the words of a refusal.
#![tactic(auto)]

#[cfg(test)]
mod account_items;
#[cfg(test)]
mod journals;

#[cfg(test)]
mod tests {
    use account::account::Account;
    use account::refusal::Refusal;
    use account::tally::Tally;
    use std::test::Fail;
    use store::store::Store;
    use store::window::Window;
    use table::slot::Slot;
    use table::table::{EMPTY, Table};

    // A slot with a part, a version and a fresh account.
    fn slot(part: u32, version: u32, reserve: u32) -> Slot {
        Slot {
            part,
            version,
            tally: Tally {
                reserve,
                ..EMPTY.tally
            },
        }
    }

    // The version and the stock of a part.
    pub(crate) fn found<S: Store>(store: &S, part: u32) -> Option<(u32, u64)> {
        let mut account = Account::blank();
        let version = store.look_up(part, &mut account)?;
        Some((version, account.stock()))
    }

    #[test]
    fn a_table_reads_memory_as_it_stands(rt: HostRuntime) -> Result<(), Fail> {
        let mut slots = [
            slot(7, 1, 1_000_000_001),
            slot(7, 0, 4),
            slot(100_001, 1, 4),
            slot(7, 3, 5),
            slot(7, 9, 6),
            EMPTY,
        ];
        {
            let mut table = Table::over(&mut slots);
            let parts = [(7, Some((3, 5))), (8, None), (0, None), (100_001, None)];
            for (part, want) in parts {
                assert_eq!(rt; found(&table, part), want);
            }
            let account = Account::fresh(12)?;
            assert_eq!(rt; table.put(8, 1, &account), Ok(()));
            assert_eq!(rt; table.put(7, 4, &account), Ok(()));
            assert_eq!(rt; found(&table, 7), Some((4, 12)));
        }
        assert_eq!(rt; slots[0].part, 8);
        assert_eq!(rt; slots[3].version, 4);
        assert_eq!(rt; slots[4].version, 9);
        Ok(())
    }

    #[test]
    fn windows_stack(rt: HostRuntime) -> Result<(), Fail> {
        let mut slots = [EMPTY; 2];
        let mut table = Table::start(&mut slots);
        {
            let mut window = Window::over(Window::over(&mut table, 100, 50), 10, 100);
            assert_eq!(rt; window.greatest(), 40);
            assert_eq!(rt; window.layer(), 2);
            let account = Account::fresh(3)?;
            let puts = [
                (40, Ok(())),
                (41, Err(Refusal::OutOfRange)),
                (1, Ok(())),
                (2, Err(Refusal::StoreRefused { layer: 0 })),
            ];
            for (part, want) in puts {
                assert_eq!(rt; window.put(part, 1, &account), want);
            }
        }
        assert_eq!(rt; found(&table, 150), Some((1, 3)));
        assert_eq!(rt; found(&table, 111), Some((1, 3)));
        Ok(())
    }

    #[test]
    fn refusals_in_words(rt: HostRuntime) -> Result<(), Fail> {
        let texts = [
            (
                Refusal::StoreRefused { layer: 2 },
                "layer 2 of the store takes no such put",
            ),
            (
                Refusal::CutShort { place: 9 },
                "the bytes end too early, at place 9",
            ),
            (Refusal::TillTaken, "the till has a draft"),
        ];
        for (refusal, want) in texts {
            let text = format!(in rt.alloc(); "{refusal}")?;
            assert_eq!(rt; text.as_str(), want);
        }
        Ok(())
    }
}
