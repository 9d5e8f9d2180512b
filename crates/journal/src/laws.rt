// The laws of journals, each the contract of a function that has nothing else to do.
ghost use Rattle.journal.specs.Journals.{EntriesStand, EntriesReadBack, StartedIsEmpty};

// Before the end stand the entries, one after another, and nothing else; what was written reads back.
pub fn entries_stand()
    ensures stand { EntriesStand }
    ensures back { EntriesReadBack }
{}

// A journal that is started has no entry.
pub fn started_is_empty()
    ensures { StartedIsEmpty }
{}
