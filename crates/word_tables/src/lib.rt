// The word lists of crunching, and how they are stored.
#![tactic(auto)]

ghost use Rattle.word_tables.specs.WordsHelpers.{SpellsWords};

pub mod spellings;

// The words of crunching as two tables, which spell the lists: the bytes of all words with a token for each behind them, and an index.
#[derive(Clone, Copy)]
pub struct Words<'a> {
    pub bytes: &'a [u8],
    pub index: &'a [u16],
    ghost spelt: { SpellsWords bytes.now index.now },
}

// The lists, in the order in which they are stored.
#[derive(Clone, Copy)]
pub enum WordList {
    V2,
    Operators,
    Tsb,
    Escapes,
    Basic35,
}
