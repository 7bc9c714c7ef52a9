// Where a scan stands in a line.
ghost use Rattle.std.specs.Prelude.{◌≡◌};
ghost use Rattle.base_ascii.specs.Search.{front};
ghost use Rattle.guess_places.specs.Places.{is_plain, is_start, aside as aside_of};
ghost use Rattle.guess_places.specs.PlaceHelpers.{stays};

use base_ascii::search;
use base_ascii::search::Kind;

#[derive(Clone, Copy)]
pub enum Place {
    // At the start of a statement.
    Start,
    // Further on in a statement.
    Within,
    // In a string.
    Quoted,
    // In DATA.
    Data,
    // In a string in DATA.
    QuotedData,
}

pub fn is_plain(place: Place) -> bool
    ensures { result ≡ is_plain place }
{
    matches!(place, Place::Start | Place::Within)
}

pub fn is_start(place: Place) -> bool
    ensures { result ≡ is_start place }
{
    matches!(place, Place::Start)
}

// The place behind a byte of a string or of DATA.
pub fn aside(place: Place, b: u8) -> Place
    ensures { result ≡ aside_of place b }
{
    match (place, b) {
        (Place::Quoted, b'"') => Place::Within,
        (Place::Data, b'"') => Place::QuotedData,
        (Place::Data, b':') => Place::Start,
        (Place::QuotedData, b'"') => Place::Data,
        _ => place,
    }
}

// How many bytes of DATA stand in front, outside strings.
fn data_length(text: &[u8]) -> usize
    ensures { result ≡ front (stays Place.Data) text.now }
{
    text.iter()
        .take_while(|b| **b != b'"' && **b != b':')
        .count()
}

// How many bytes of a string or of DATA stand in front, behind each of which the place is the same.
pub fn stretch(place: Place, text: &[u8]) -> usize
    ensures { result ≡ front (stays place) text.now }
{
    match place {
        Place::Start | Place::Within => 0,
        Place::Quoted | Place::QuotedData => search::before(text, Kind::Is(b'"')),
        Place::Data => data_length(text),
    }
}
