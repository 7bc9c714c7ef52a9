// Whether a line uses a TSB word as a statement, as a function or as ELSE; and where.
#![tactic(auto)]

ghost use Rattle.std.specs.Prelude.{◌≡◌, ◌*◌, ◌≤◌, ◌<◌, true, false, ◌&&◌, eqb, length, get_or};
ghost use Rattle.base_ascii.specs.Bytes.{is_letter};
ghost use Rattle.base_ascii.specs.declared.search.Kind.TheVariants.{White};
ghost use Rattle.guess_evidence.specs.Evidence.{word_proves, statement_step, evidence_step, number_length, line_evidence, list_place, deciding_place, deciding_word};
ghost use Rattle.guess_places.specs.Places.{is_plain};
ghost use Rattle.guess_uses.specs.MarkHelpers.{MarksOf};

use base_ascii::search;
use base_ascii::search::Kind;
use guess_places::place::Place;
use guess_places::{beginnings, place};
use guess_uses::{lists, proving};
use word_tables::{Words, spellings};

// The first word of a line that proves that a text is TSB: where it stands in the line, and its place in the TSB list.
#[derive(Clone, Copy)]
pub struct DecidingWord {
    pub offset: usize,
    pub word: usize,
}

#[derive(Clone, Copy)]
pub enum EvidenceStep {
    // A TSB word that proves it.
    Proved,
    // A remark: the rest of the line counts for nothing.
    Remark,
    On { used: usize, place: Place },
}

// Whether a TSB word stands in front of a text, and proves that the text is TSB.
fn word_proves(place: Place, text: &[u8], marks: &[u8], words: Words) -> bool
    requires { MarksOf White text.now marks.now }
    ensures { result ≡ word_proves place text.now }
{
    match beginnings::tsb_word(text, words) {
        Some(found) => proving::proves(place::is_start(place), text, found.used, marks),
        None => false,
    }
}

fn on(used: usize, place: Place) -> EvidenceStep
    ensures { result ≡ EvidenceStep.On used place }
{
    EvidenceStep::On { used, place }
}

// A step at a letter outside strings and DATA: only there a word may stand.
fn letter_step(place: Place, text: &[u8], marks: &[u8], words: Words) -> EvidenceStep
    requires { (0 < length text.now) × MarksOf White text.now marks.now × (is_letter (get_or text.now 0 0) ≡ true) }
    ensures { result ≡ statement_step place text.now }
{
    if beginnings::begins_rem(text) {
        return EvidenceStep::Remark;
    }
    if beginnings::begins_data(text) {
        return on(4, Place::Data);
    }
    if word_proves(place, text, marks, words) {
        EvidenceStep::Proved
    } else {
        on(1, Place::Within)
    }
}

// A step at another byte.
fn other_step(place: Place, text: &[u8]) -> EvidenceStep
    requires { (0 < length text.now) × (is_letter (get_or text.now 0 0) ≡ false) }
    ensures { result ≡ statement_step place text.now }
{
    let b = text[0];
    if b == b'"' {
        on(1, Place::Quoted)
    } else if b == b':' {
        on(1, Place::Start)
    } else if search::is_kind(b, Kind::White) {
        on(1, place)
    } else {
        on(1, Place::Within)
    }
}

// A step outside strings and DATA.
fn statement_step(place: Place, text: &[u8], marks: &[u8], words: Words) -> EvidenceStep
    requires { (0 < length text.now) × MarksOf White text.now marks.now }
    ensures { result ≡ statement_step place text.now }
{
    if base_ascii::is_letter(text[0]) {
        letter_step(place, text, marks, words)
    } else {
        other_step(place, text)
    }
}

fn evidence_step(place: Place, text: &[u8], marks: &[u8], words: Words) -> EvidenceStep
    requires { (0 < length text.now) × MarksOf White text.now marks.now }
    ensures { result ≡ evidence_step place text.now }
{
    if place::is_plain(place) {
        statement_step(place, text, marks, words)
    } else {
        on(1, place::aside(place, text[0]))
    }
}

// Where the first statement of a line begins: behind white space and digits.
fn number_length(line: &[u8]) -> usize
    ensures { result ≡ number_length line.now }
{
    let blanks = search::front(line, Kind::White);
    blanks + search::front(&line[blanks..], Kind::Digit)
}

// The place in the list of the TSB word that a text begins with.
fn list_place(text: &[u8], words: Words) -> usize
    ensures { result ≡ list_place text.now }
{
    match beginnings::tsb_word(text, words) {
        Some(found) => found.index,
        None => 0,
    }
}

// Whether a byte is a space outside strings and DATA, which leaves the place as it is.
fn is_gap(place: Place, b: u8) -> bool
    ensures { result ≡ (eqb b 0x20 && is_plain place) }
{
    b == b' ' && place::is_plain(place)
}

// A space is passed without a step, since no byte is more frequent.
fn marked_place(line: &[u8], marks: &[u8], words: Words) -> Option<usize>
    requires { MarksOf White line.now marks.now }
    ensures { result ≡ deciding_place line.now }
{
    let mut i = number_length(line);
    let mut place = Place::Start;
    while i < line.len() {
        if is_gap(place, line[i]) {
            i += 1;
        } else {
            match evidence_step(place, &line[i..], marks, words) {
                EvidenceStep::Proved => return Some(i),
                EvidenceStep::Remark => return None,
                EvidenceStep::On { used, place: next } => {
                    let behind = i + used;
                    i = behind + place::stretch(next, &line[behind..]);
                    place = next;
                }
            }
        }
    }
    None
}

// The same, with marks, which a line has room for that has at most eight bytes to each of so many.
fn place_by_marks<const N: usize>(line: &[u8], words: Words) -> Option<usize>
    requires { (length line.now ≤ 8 * N) × (N ≤ 131072) }
    ensures { result ≡ deciding_place line.now }
{
    let mut marks = [0u8; N];
    let mut levels = [0u8; N];
    lists::mark(line, Kind::White, &mut marks, &mut levels);
    marked_place(line, &marks, words)
}

// Where the first word that proves it stands. A short line needs no room for marks, a longer one 4 KB or 256 KB; no text has a line that is
// longer still.
fn deciding_place(line: &[u8], words: Words) -> Option<usize>
    ensures { result ≡ deciding_place line.now }
{
    match line.len() {
        // Of a line of blanks nothing is left.
        0 => None,
        257..=16384 => place_by_marks::<2048>(line, words),
        16385..=1048576 => place_by_marks::<131072>(line, words),
        _ => marked_place(line, b"", words),
    }
}

// Whether a line proves that a text is TSB.
pub fn line_evidence(line: &[u8], words: Words) -> bool
    ensures { result ≡ line_evidence line.now }
{
    deciding_place(line, words).is_some()
}

// The first TSB word of a line that proves it.
pub fn deciding_word(line: &[u8]) -> Option<DecidingWord>
    ensures { result ≡ deciding_word line.now }
{
    let words = spellings::stored_words();
    let offset = deciding_place(line, words)?;
    let word = list_place(&line[offset..], words);
    Some(DecidingWord { offset, word })
}
