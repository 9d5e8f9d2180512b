// Journals in bytes of several sizes, and one that is damaged.
use crate::tests::found;
use account::account::Account;
use account::refusal::Refusal;
use journal::journal::Journal;
use std::test::Fail;
use store::store::Store;

fn is_full(answer: Result<(), Refusal>) -> bool {
    matches!(answer, Err(Refusal::StoreRefused { layer: 0 }))
}

#[test]
fn a_journal_takes_while_377_bytes_remain(rt: HostRuntime) -> Result<(), Fail> {
    let account = Account::fresh(12)?;
    for size in [0, 1, 376] {
        let mut bytes = [7; 376];
        assert!(rt; size <= bytes.len());
        let mut journal = Journal::start(&mut bytes[..size]);
        assert!(rt; is_full(journal.put(5, 1, &account)));
    }
    let mut bytes = [7; 377];
    {
        let mut journal = Journal::start(&mut bytes);
        assert!(rt; journal.put(5, 1, &account).is_ok());
        assert!(rt; is_full(journal.put(5, 2, &account)));
        assert_eq!(rt; found(&journal, 5), Some((1, 12)));
    }
    // version, kind, byte count, part, reserve, the last of 72 counts, the end mark, and what stood there before
    for (place, want) in [
        (0, 1),
        (1, 1),
        (2, 74),
        (3, 5),
        (4, 12),
        (76, 0),
        (77, 0),
        (78, 7),
    ] {
        assert!(rt; place < bytes.len());
        assert_eq!(rt; bytes[place], want);
    }
    Ok(())
}

#[test]
fn a_journal_ends_at_a_damaged_entry(rt: HostRuntime) -> Result<(), Fail> {
    let mut bytes = [7; 600];
    {
        let mut journal = Journal::start(&mut bytes);
        assert!(rt; journal.put(5, 1, &Account::fresh(12)?).is_ok());
        assert!(rt; journal.put(6, 1, &Account::fresh(13)?).is_ok());
        assert_eq!(rt; found(&journal, 6), Some((1, 13)));
    }
    // the second entry begins at 77: version 0, a remark, a byte count too long, part 0, goods issued that were never taken in
    for (place, byte) in [(77, 0), (78, 2), (79, 75), (80, 0), (146, 1)] {
        let mut damaged = bytes;
        assert!(rt; place < damaged.len());
        damaged[place] = byte;
        let journal = Journal::over(&mut damaged);
        assert_eq!(rt; found(&journal, 5), Some((1, 12)));
        assert_eq!(rt; found(&journal, 6), None);
    }
    Ok(())
}

// The parts to 127 take 77 bytes each, the others 78: after 837 entries exactly 377 bytes remain, after 838 only 299.
#[test]
fn a_journal_uses_65_536_bytes(rt: HostRuntime) -> Result<(), Fail> {
    let mut bytes = [7; 65_537];
    {
        let account = Account::fresh(0)?;
        let mut journal = Journal::start(&mut bytes);
        for part in 1..839 {
            assert!(rt; journal.put(part, 1, &account).is_ok());
        }
        assert!(rt; is_full(journal.put(839, 1, &account)));
        assert!(rt; is_full(journal.put(1, 2, &account)));
        assert_eq!(rt; found(&journal, 838), Some((1, 0)));
    }
    // the entries end at 65,237
    assert_eq!(rt; bytes[65_237], 0);
    assert_eq!(rt; bytes[65_238], 7);
    assert_eq!(rt; bytes[65_536], 7);
    Ok(())
}
