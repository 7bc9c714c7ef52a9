// The numbers that an image's lines have, marked in lent bytes, so that a target is looked up in one step.
#![tactic(auto)]

ghost use Rattle.std.specs.Prelude.{◌≡◌};
ghost use Rattle.image_readers.specs.Lined.{lined_from};
ghost use Rattle.image_readers.specs.Links.{link_step};
ghost use Rattle.image_marks.specs.Marks.{line_marks, has_mark};

use image_readers::links;

// Marks the numbers that lines have, as far as the links lead.
pub fn mark_numbers(image: &[u8], marked: &mut [u8])
    ensures { marked.new ≡ line_marks marked.old (lined_from link_step image.now 2).lines }
{
    let mut offset: usize = 2;
    while let Ok(Some(line)) = links::step(image, offset) {
        let number = usize::from(line.number);
        if number < marked.len() {
            marked[number] = 1;
        }
        offset = line.next;
    }
}

// Whether a number is marked.
pub fn has_mark(marked: &[u8], number: usize) -> bool
    ensures { result ≡ has_mark marked.now number }
{
    number < marked.len() && marked[number] != 0
}
