// The steps of a body that an editor is told of.
use crate::sayings::{Saying, cut};
use crate::sentence::Report;
use body::at;
use body_rules::Mode;
use desk::line::Line;
use editor_findings::braces::Inside;
use editor_findings::sights::Sighting;
use editor_findings::{braces, sights};
use editor_near_names::{names, parts};
use editor_steps::Finding;
use text_places::Place;
use word_match::sets::Sets;

// How many columns some bytes take, as an editor shows them.
fn columns(s: &[u8]) -> usize {
    if s.len() > 1048576 {
        return 0;
    }
    text_places::place_of(s, s.len()).column.saturating_sub(1)
}

// The escape that is nearest to what stands between braces, with the count that stands there; nothing where no name is near.
fn nearest(inside: &[u8]) -> Line<40> {
    let mut near = Line::new();
    let mut name = [0u8; 40];
    let n = names::put_nearest(inside, &mut name);
    near.put(cut(&name, 0, n));
    let count = parts::count_part(inside);
    if n > 0 && !count.is_empty() {
        near.put(b"*");
        near.put(count);
    }
    near
}

// A { that begins no escape: what an author has put behind it, and the name that is nearest to it.
fn tell_brace(report: &mut Report, at: Place, rest: &[u8]) {
    match braces::behind_brace(rest) {
        Inside::Closed(n) => {
            let inside = cut(rest, 0, n);
            report.tell(at, Saying::Stray, inside, nearest(inside).bytes());
        }
        Inside::Unclosed(n) => {
            let inside = cut(rest, 0, n);
            report.tell(at, Saying::Open, inside, nearest(inside).bytes());
        }
        Inside::Long => report.tell(at, Saying::Long, cut(rest, 0, 40), b""),
    }
}

// A step that gives a zero: an escape, or the byte itself.
fn tell_zero(report: &mut Report, at: Place, step: &[u8]) {
    if step.len() < 2 {
        report.tell_bare(at, Saying::ZeroByte);
    } else {
        report.tell(at, Saying::Zero, step, b"");
    }
}

// A step that was found: its text, and what stands behind it.
fn tell_sight(report: &mut Report, at: Place, finding: Finding, step: &[u8], rest: &[u8]) {
    match finding {
        Finding::Usual => {}
        Finding::TsbWord => report.tell(at, Saying::TsbWord, step, b""),
        Finding::Zero => tell_zero(report, at, step),
        Finding::Brace => tell_brace(report, at, rest),
        Finding::Control => report.tell_bare(at, Saying::Control),
    }
}

// The steps of a body, which begins at a place of its text: at most one is told for each byte.
pub fn check_steps(report: &mut Report, from: Place, body: &[u8], sets: Sets) {
    let mut stand = at::stand_at(body, 0, Mode::Plain);
    let mut told: usize = 0;
    let mut place = from;
    for _ in 0..body.len() {
        let next = sights::sight_from(body, stand, sets);
        stand = next.stand;
        let Some(
            Sighting {
                finding,
                from: at,
                to,
            },
        ) = next.sighting
        else {
            return;
        };
        place.column = place.column.saturating_add(columns(cut(body, told, at)));
        told = at;
        let step = cut(body, at, to.at);
        tell_sight(report, place, finding, step, cut(body, to.at, body.len()));
    }
}
