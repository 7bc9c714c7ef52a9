// The test for a TSB word.
ghost use Rattle.std.specs.Prelude.{◌≡◌};
ghost use Rattle.word_tables.specs.Tsb.{is_tsb_word};

use word_search::Test;
use word_tables::{WordList, spellings};

// Whether the word is the spelling of a TSB word, in capitals.
pub fn is_tsb_keyword_name(word: &[u8]) -> bool
    ensures { result ≡ is_tsb_word word.now }
{
    crate::match_in(WordList::Tsb, Test::Same, word, spellings::stored_words()).is_some()
}
