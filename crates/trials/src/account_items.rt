// Bytes that are no account item, and what a writer leaves of a buffer.
use account::account::Account;
use account::refusal::Refusal;
use items::read::read_account;
use items::write::{write_account, write_remark};
use std::test::Fail;

#[test]
fn bytes_are_refused_at_their_place(rt: HostRuntime) {
    for (bytes, want) in [
        (&[][..], Refusal::CutShort { place: 0 }),
        (&[0x80][..], Refusal::CutShort { place: 0 }),
        (&[5][..], Refusal::Malformed { place: 0 }),
        (&[0x80, 0][..], Refusal::Malformed { place: 0 }),
        (&[2, 0][..], Refusal::OtherKind { place: 0 }),
        (&[1][..], Refusal::CutShort { place: 1 }),
        (&[1, 74][..], Refusal::CutShort { place: 2 }),
        (&[1, 1, 0x80][..], Refusal::CutShort { place: 2 }),
        (&[1, 1, 0][..], Refusal::Malformed { place: 2 }),
        (&[1, 1, 7][..], Refusal::CutShort { place: 3 }),
        (&[1, 2, 7, 0x80][..], Refusal::CutShort { place: 3 }),
        (&[1, 3, 7, 0x80, 0][..], Refusal::Malformed { place: 3 }),
    ] {
        assert_eq!(rt; read_account(bytes).err(), Some(want));
    }
}

#[test]
fn a_writer_leaves_the_other_bytes(rt: HostRuntime) -> Result<(), Fail> {
    let account = Account::fresh(4)?;
    let mut bytes = [9; 80];
    assert_eq!(rt;
        write_account(&mut bytes, 5, 7, &account),
        Err(Refusal::NoRoom)
    );
    assert!(rt; bytes[5] == 9);
    assert_eq!(rt; write_account(&mut bytes, 3, 7, &account), Ok(76));
    for (place, want) in [
        (2, 9),
        (3, 1),
        (4, 74),
        (5, 7),
        (6, 4),
        (7, 0),
        (78, 0),
        (79, 9),
    ] {
        assert_eq!(rt; bytes.get(place), Some(&want));
    }
    for (end, want) in [
        (78, Some(Refusal::CutShort { place: 75 })),
        (79, None),
        (80, Some(Refusal::Malformed { place: 76 })),
    ] {
        assert!(rt; 3 <= end && end <= bytes.len());
        assert_eq!(rt; read_account(&bytes[3..end]).err(), want);
    }
    Ok(())
}

#[test]
fn a_remark_has_at_most_200_bytes(rt: HostRuntime) {
    let text = [9; 201];
    for (place, length, want) in [
        (203, 0, Some(Refusal::NoRoom)),
        (204, 0, Some(Refusal::OutOfRange)),
        (0, 200, None),
        (1, 200, Some(Refusal::NoRoom)),
        (0, 201, Some(Refusal::OutOfRange)),
    ] {
        let mut bytes = [0; 203];
        assert!(rt; length <= 201);
        let answer = write_remark(&mut bytes, place, &text[0..length]);
        assert_eq!(rt; answer.err(), want);
    }
}
