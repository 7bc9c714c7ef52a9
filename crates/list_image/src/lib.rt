// The listing of an image.
#![tactic(auto)]

ghost use Rattle.std.specs.Prelude.{◌≡◌, ◌/◌, ◌≤◌, Ok, length};
ghost use Rattle.base_lent.specs.Lent.{into_buffer, room_for, left};
ghost use Rattle.base_lent.specs.Stores.{HasRoom};
ghost use Rattle.list_image.specs.Listing.{listing, listing_by, listing_under};
ghost use Rattle.base_refusals.specs.Answer.{answered};

use base_refusals::Refusal;
use image_readers::By;
use image_units::Rules;
use list_options::ListOptions;
use list_texts::Texts;

// Stores the listing of an image at the start of a buffer, as the original lists it, and answers how long it is.
pub fn list(image: &[u8], out: &mut [u8]) -> Result<usize, Refusal>
    ensures { left result out.new ≡ into_buffer (listing image.now) out.old }
{
    list_under(image, list_options::original(), out)
}

// The room that this listing of an image needs.
pub fn room(image: &[u8]) -> Result<usize, Refusal>
    ensures { answered result ≡ room_for (listing image.now) }
{
    room_under(image, list_options::original())
}

// Stores the listing of an image at the start of a buffer, as the options ask for it, and answers how long it is.
pub fn list_under(image: &[u8], options: ListOptions, out: &mut [u8]) -> Result<usize, Refusal>
    ensures { left result out.new ≡ into_buffer (listing_under options image.now) out.old }
{
    let rules = list_options::rules_under(options);
    list_with(out, list_texts::stored_texts(), options.by, rules, image)
}

// The room that this listing of an image needs.
pub fn room_under(image: &[u8], options: ListOptions) -> Result<usize, Refusal>
    ensures { answered result ≡ room_for (listing_under options image.now) }
{
    let rules = list_options::rules_under(options);
    measure(list_texts::stored_texts(), options.by, rules, image)
}

// Where the room holds nine bytes for each byte of the image, which no listing exceeds, nothing is measured.
fn list_with(
    out: &mut [u8],
    texts: Texts,
    by: By,
    rules: Rules,
    image: &[u8],
) -> Result<usize, Refusal>
    ensures { left result out.new ≡ into_buffer (listing_by by rules image.now) out.old }
{
    if image.len() <= out.len() / 9 {
        list_checked(out, texts, by, rules, image)
    } else {
        list_measured(out, texts, by, rules, image)
    }
}

// The same in a buffer that holds any listing of an image of this length: a refused image is known before a byte is stored.
fn list_checked(
    out: &mut [u8],
    texts: Texts,
    by: By,
    rules: Rules,
    image: &[u8],
) -> Result<usize, Refusal>
    requires { (length image.now ≤ length out.old / 9) }
    ensures { left result out.new ≡ into_buffer (listing_by by rules image.now) out.old }
{
    image_readers::check_by(image, by)?;
    Ok(write(out, texts, by, rules, image))
}

// The same in any buffer: what is measured decides.
fn list_measured(
    out: &mut [u8],
    texts: Texts,
    by: By,
    rules: Rules,
    image: &[u8],
) -> Result<usize, Refusal>
    ensures { left result out.new ≡ into_buffer (listing_by by rules image.now) out.old }
{
    let needed = measure(texts, by, rules, image)?;
    if needed > out.len() {
        return Err(Refusal::NoRoom { needed });
    }
    Ok(write(out, texts, by, rules, image))
}

fn measure(texts: Texts, by: By, rules: Rules, image: &[u8]) -> Result<usize, Refusal>
    ensures { answered result ≡ room_for (listing_by by rules image.now) }
{
    let mut offset: usize = 2;
    let mut n: usize = 0;
    while let Some(line) = image_readers::step_by(image, offset, by)? {
        n += list_lines::measure_line(texts, rules, line.number, &image[line.from..line.to]);
        offset = line.next;
    }
    Ok(n)
}

// Stores the listing of an image that has one, in a buffer that has the room.
fn write(out: &mut [u8], texts: Texts, by: By, rules: Rules, image: &[u8]) -> usize
    requires { HasRoom out.old (listing_by by rules image.now) }
    ensures { left (Ok result) out.new ≡ into_buffer (listing_by by rules image.now) out.old }
{
    let mut offset: usize = 2;
    let mut at: usize = 0;
    // An image that has a listing is refused nowhere.
    while let Ok(Some(line)) = image_readers::step_by(image, offset, by) {
        let behind = list_lines::put_head(out, at, line.number);
        at = list_lines::put_rest(out, behind, texts, rules, &image[line.from..line.to]);
        offset = line.next;
    }
    at
}
