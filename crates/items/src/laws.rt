// The laws of reading and writing items, each the contract of a function that has nothing else to do.
ghost use Rattle.items.specs.Laws.{ItemsReadBack, ItemsReadOnly, AccountsReadBack, AccountsReadOnly, RemarksReadBack, RemarksReadOnly, AccountsAreShort};

// What is written reads back, and what follows it is untouched.
pub fn written_reads_back()
    ensures items { ItemsReadBack }
    ensures accounts { AccountsReadBack }
    ensures remarks { RemarksReadBack }
{}

// Only bytes that writing gives are accepted.
pub fn only_written_is_read()
    ensures items { ItemsReadOnly }
    ensures accounts { AccountsReadOnly }
    ensures remarks { RemarksReadOnly }
{}

// An account item never takes more than `LONGEST_ACCOUNT` bytes.
pub fn account_items_are_short()
    ensures { AccountsAreShort }
{}
