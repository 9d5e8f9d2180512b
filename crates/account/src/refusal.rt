// Why a depot declines a call, by the numbers 1 to 17. Where several fit, the lowest number is answered.
ghost use Rattle.std.specs.Prelude.{◌≡◌};
ghost use Rattle.account.specs.Refusals.{number_of};

use thiserror::Error;

#[derive(Clone, Copy, PartialEq, Eq, Debug, Error)]
pub enum Refusal {
    // 1
    #[error("an argument is outside its range")]
    OutOfRange,
    // 2: the place of the first byte that is missing or of the number that is cut off
    #[error("the bytes end too early, at place {place}")]
    CutShort { place: usize },
    // 3: the place of the number at fault or of the first byte left over
    #[error("a number is malformed or bytes are left over, at place {place}")]
    Malformed { place: usize },
    // 4: the place of the item's kind
    #[error("the item at place {place} is of another kind")]
    OtherKind { place: usize },
    // 5
    #[error("the part has no account here")]
    NoAccount,
    // 6
    #[error("the part has an account already")]
    AccountExists,
    // 7
    #[error("the till has a draft")]
    TillTaken,
    // 8
    #[error("the slip is not that of a draft at this depot")]
    NoDraft,
    // 9
    #[error("a depot hands nothing over to itself")]
    OwnDepot,
    // 10
    #[error("more than the own free stock in the draft")]
    NotEnoughFree,
    // 11
    #[error("the reserve is not the stored one")]
    OtherReserve,
    // 12
    #[error("the counts contradict the books")]
    Contradiction,
    // 13
    #[error("a count or a version would pass 1,000,000,000")]
    LimitPassed,
    // 14
    #[error("the stored version is no longer the draft's")]
    VersionMoved,
    // 15: the layer of the store that refused
    #[error("layer {layer} of the store takes no such put")]
    StoreRefused { layer: u32 },
    // 16
    #[error("the bytes do not fit")]
    NoRoom,
    // 17
    #[error("the line is none of the program's")]
    UnknownLine,
}

impl Refusal {
    // The number by which staff and documents know the refusal.
    pub fn number(self) -> u32
        ensures { result ≡ number_of self }
    {
        match self {
            Refusal::OutOfRange => 1,
            Refusal::CutShort { .. } => 2,
            Refusal::Malformed { .. } => 3,
            Refusal::OtherKind { .. } => 4,
            Refusal::NoAccount => 5,
            Refusal::AccountExists => 6,
            Refusal::TillTaken => 7,
            Refusal::NoDraft => 8,
            Refusal::OwnDepot => 9,
            Refusal::NotEnoughFree => 10,
            Refusal::OtherReserve => 11,
            Refusal::Contradiction => 12,
            Refusal::LimitPassed => 13,
            Refusal::VersionMoved => 14,
            Refusal::StoreRefused { .. } => 15,
            Refusal::NoRoom => 16,
            Refusal::UnknownLine => 17,
        }
    }
}
