// Some parts of a store, seen as a store under other numbers.
ghost use Rattle.std.specs.Prelude.{◌≡◌};
ghost use Rattle.store.specs.Windows.{last_seen, part_below, seen};
ghost use Rattle.store.specs.WindowSound.{window_sound};

use crate::store::Store;
use account::account::Account;
use account::refusal::Refusal;
use account::tally::LIMIT;

// Part p of the window is part p + offset of the store below, up to the width.
#[derive(Drop)]
pub struct Window<S: Store> {
    below: S,
    offset: u32,
    width: u32,
}

impl<S: Store> Window<S> {
    pub fn over(below: S, offset: u32, width: u32) -> Window<S>
        ensures { (result.below ≡ below) × (result.offset ≡ offset) × (result.width ≡ width) }
    {
        Window {
            below,
            offset,
            width,
        }
    }

    // The greatest part.
    fn last(&self) -> u32
        ensures { result ≡ last_seen (S.meaning self.now.below) self.now.offset self.now.width }
    {
        self.below
            .greatest()
            .saturating_sub(self.offset)
            .min(self.width)
    }

    // Which part of the store below a part is, if it is seen.
    fn part_below(&self, part: u32) -> Option<u32>
        ensures { result ≡ part_below (S.meaning self.now.below) self.now.offset self.now.width part }
    {
        (1..=self.last())
            .contains(&part)
            .then(|| part + self.offset)
    }
}

impl<S: Store> Store for Window<S> {
    ghost meaning = { λ w. seen (S.Store.meaning w.below) w.offset w.width };

    ghost sound = { λ w. window_sound (S.Store.meaning w.below) w.offset w.width (S.Store.sound w.below) };

    fn greatest(&self) -> u32 {
        self.last()
    }

    fn layer(&self) -> u32 {
        (self.below.layer() + 1).min(LIMIT)
    }

    fn look_up(&self, part: u32, into: &mut Account) -> Option<u32> {
        self.below.look_up(self.part_below(part)?, into)
    }

    fn put(&mut self, part: u32, version: u32, account: &Account) -> Result<(), Refusal> {
        let Some(below) = self.part_below(part) else {
            return Err(Refusal::OutOfRange);
        };
        self.below.put(below, version, account)
    }
}
