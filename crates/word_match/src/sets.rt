// The words that count as words when a text is crunched.
ghost use Rattle.std.specs.Prelude.{◌≡◌};
ghost use Rattle.word_match.specs.Sets.{with_forms};

// Whether TSB words are live at all; and, by its place in the list, each word that is demoted, since the text uses it as a variable. A
// word is live where `tsb` holds and it is not demoted. Whether the words of BASIC 3.5 are looked for beside the V2 words, and
// whether short forms of V2 words are taken.
#[derive(Clone, Copy)]
pub struct Sets {
    pub tsb: bool,
    pub demoted: [bool; 123],
    pub basic35: bool,
    pub forms: bool,
}

// The same words, with or without short forms.
pub fn with_forms(sets: Sets, on: bool) -> Sets
    ensures { result ≡ with_forms on sets }
{
    Sets { forms: on, ..sets }
}
