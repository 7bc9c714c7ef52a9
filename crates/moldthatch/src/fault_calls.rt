// What makes a program unfit for the master, one fault after the other: its lines' numbers are marked once, then the walk is carried from
// call to call.
ghost use Rattle.std.specs.Prelude.{◌≡◌};
ghost use Rattle.image_readers.specs.Links.{link_step};
ghost use Rattle.image_readers.specs.Lined.{lined_from};
ghost use Rattle.image_fitness.specs.declared.Stage.TheVariants.{Memory};
ghost use Rattle.image_marks.specs.Marks.{has_mark, line_marks};
ghost use Rattle.image_fitness.specs.FaultHelpers.{faults_at};
ghost use Rattle.library_numbers.specs.FaultNumbers.{walk_place, FaultLeft};

use library_numbers::faults::{FaultCode, WalkNumbers};

// Marks the numbers that an image's lines have, as far as its links lead.
#[unsafe(no_mangle)]
pub extern "C" fn moldthatch_mark_numbers(image: &[u8], marked: &mut [u8])
    ensures { marked.new ≡ line_marks marked.old (lined_from link_step image.now 2).lines }
{
    image_marks::mark_numbers(image, marked);
}

// The place before an image's first byte.
#[unsafe(no_mangle)]
pub extern "C" fn moldthatch_fault_start() -> WalkNumbers
    ensures { walk_place result ≡ record { stage = Memory; offset = 2; least = 0 } }
{
    library_numbers::faults::start()
}

// The next fault from a place on, and the place behind it.
#[unsafe(no_mangle)]
pub extern "C" fn moldthatch_next_fault(
    image: &[u8],
    marked: &[u8],
    place: WalkNumbers,
) -> FaultCode
    ensures { FaultLeft (has_mark marked.now) image.now (faults_at (has_mark marked.now) image.now (walk_place place)) result }
{
    library_numbers::faults::next_fault(image, marked, place)
}
