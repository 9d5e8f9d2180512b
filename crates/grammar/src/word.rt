// The words that commands begin with.
ghost use Rattle.std.specs.Prelude.{◌≡◌};
ghost use Rattle.grammar.specs.Grammar.{text, word_of};

#[derive(Clone, Copy)]
pub enum Word {
    Create,
    Open,
    In,
    Out,
    Give,
    File,
    Drop,
    Restart,
    Send,
    Recv,
    Stock,
    Own,
    Ask,
}

const WORDS: [Word; 13] = [
    Word::Create,
    Word::Open,
    Word::In,
    Word::Out,
    Word::Give,
    Word::File,
    Word::Drop,
    Word::Restart,
    Word::Send,
    Word::Recv,
    Word::Stock,
    Word::Own,
    Word::Ask,
];

impl Word {
    fn text(self) -> &'static [u8]
        ensures { result.now ≡ text self }
    {
        match self {
            Word::Create => b"create",
            Word::Open => b"open",
            Word::In => b"in",
            Word::Out => b"out",
            Word::Give => b"give",
            Word::File => b"file",
            Word::Drop => b"drop",
            Word::Restart => b"restart",
            Word::Send => b"send",
            Word::Recv => b"recv",
            Word::Stock => b"stock",
            Word::Own => b"own",
            Word::Ask => b"ask",
        }
    }

    // The word that the bytes spell.
    pub fn read(bytes: &[u8]) -> Option<Word>
        ensures { result ≡ word_of bytes.now }
    {
        for word in WORDS {
            if bytes == word.text() {
                return Some(word);
            }
        }
        None
    }
}
