// What a depot hands out for a draft.
ghost use Rattle.std.specs.Prelude.{◌≡◌, None};

use account::refusal::Refusal;

// Names one draft. It is not copied, so it is filed or dropped at most once.
#[derive(Drop)]
pub struct Slip {
    pub(crate) depot: u32,
    pub(crate) till: u32,
    pub(crate) serial: u32,
    pub(crate) version: u32,
}

impl Slip {
    // The version that the draft began with.
    pub fn version(&self) -> u32
        ensures { result ≡ self.now.version }
    {
        self.version
    }
}

// A filing or dropping that is refused. Where the slip is no draft's it is handed back; else its draft is over.
#[derive(Drop)]
pub struct Declined {
    pub refusal: Refusal,
    pub slip: Option<Slip>,
}

// A refusal after the slip was given up.
impl From<Refusal> for Declined {
    ghost from_gives = { λ e r. r ≡ record { refusal = e; slip = None } };

    fn from(refusal: Refusal) -> Declined {
        Declined {
            refusal,
            slip: None,
        }
    }
}
