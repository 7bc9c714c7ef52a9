// A bound of an image's length, found without reading the bodies that have no }.
ghost use Rattle.std.specs.Prelude.{false};
ghost use Rattle.body_rules.specs.Lexicon.{lexicon};
ghost use Rattle.crunch_rules.specs.PassesHelpers.{text_image};
ghost use Rattle.crunch_image.specs.CallHelpers.{FitsIf};

use text_lines::LineRule;
use word_match::sets::Sets;
use word_tables::Words;

// Whether every line has its number, and the image surely fits its addresses and the room. Where this says no, the exact length decides.
pub fn fits(text: &[u8], load: u16, room: usize, words: Words, sets: Sets) -> bool
    ensures { FitsIf result room (text_image false (lexicon sets) load text.now) }
{
    let first = load as usize;
    let mut address = first;
    let mut at: usize = 0;
    while at < text.len() {
        let next = text_lines::next_line(text, at, LineRule::AfterCr);
        let line = &text[next.begin..next.end];
        let behind = crunch_sizes::bound_line(line, address, words, sets);
        if behind > 0xFFFF {
            return false;
        }
        address = behind;
        at = next.next;
    }
    address - first + 4 <= room
}
