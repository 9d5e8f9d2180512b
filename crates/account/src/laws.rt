// The laws of accounts, each the contract of a function that has nothing else to do.
ghost use Rattle.account.specs.Laws.{FreeStockNeverNegative, FreeStocksAddUp, StockNeverUnderReserve, EqualByNumbers, TellsEqual, JoinCommutes, JoinAssociates, JoinWithItself, JoinHoldsBoth, JoinIsLeast, AcceptedIsLawful, LowestRefusalAnswers};

use crate::account::Account;
use crate::tally::{Row, Tally};

// What the price list rests on.
pub fn stock_never_under_reserve()
    ensures free { FreeStockNeverNegative }
    ensures sum { FreeStocksAddUp }
    ensures stock { StockNeverUnderReserve }
{}

// Accounts are equal when reserve and counts are, and `==` tells so, as it does of rows and of tallies.
pub fn equal_by_numbers()
    ensures numbers { EqualByNumbers }
    ensures rows { TellsEqual ⟦<Row as PartialEq>⟧.eq }
    ensures tallies { TellsEqual ⟦<Tally as PartialEq>⟧.eq }
    ensures accounts { TellsEqual ⟦<Account as PartialEq>⟧.eq }
{}

// The order of joins is of no account, nor is how often one is made.
pub fn join_is_least_bound()
    ensures commutes { JoinCommutes }
    ensures associates { JoinAssociates }
    ensures itself { JoinWithItself }
    ensures bound { JoinHoldsBoth }
    ensures least { JoinIsLeast }
{}

// Fresh accounts, bookings and joins that are accepted keep the rules.
pub fn accepted_is_lawful()
    ensures { AcceptedIsLawful }
{}

// Each list of refusals ascends by number.
pub fn lowest_refusal_answers()
    ensures { LowestRefusalAnswers }
{}
