// The laws of numbers, each the contract of a function that has nothing else to do.
ghost use Rattle.numbers.specs.Laws.{NumbersReadBack, NumbersReadOnly};

// What is written reads back, and what follows it is untouched.
pub fn written_reads_back()
    ensures { NumbersReadBack }
{}

// Only bytes that writing gives are accepted.
pub fn only_written_is_read()
    ensures { NumbersReadOnly }
{}
