// What is said about a file, a line for each finding. The lines stand on a page and are written when it is full and at the end: a write has whole
// lines, so that those of two programs do not mix. Of one kind 1,000 are told, and the others are counted.
use crate::sayings;
use crate::sayings::{KINDS, Saying};
use base_refusals::Refusal;
use desk::line::Line;
use desk::{result, saying};
use desk_status::Status;
use text_places::Place;

// How many of one kind are told.
const MOST: usize = 1000;

// How many bytes a page has.
const PAGE: usize = 65_536;

// No line is longer, once it is shown: 9,216 bytes, each by at most five.
const LONGEST: usize = 46_592;

// What was found so far of a file: whether a release would refuse it, whether a line could not be written, the lines that are still to be written, and
// how many of each kind there were. A quiet one writes no line.
#[derive(Drop)]
pub struct Report<'a> {
    rt: &'a HostRuntime,
    name: &'a [u8],
    is_quiet: bool,
    is_faulty: bool,
    is_failed: bool,
    page: Line<PAGE>,
    counts: [usize; 22],
}

impl Report<'_> {
    pub fn new<'a>(rt: &'a HostRuntime, name: &'a [u8], is_quiet: bool) -> Report<'a> {
        Report {
            rt,
            name,
            is_quiet,
            is_faulty: false,
            is_failed: false,
            page: Line::new(),
            counts: [0; 22],
        }
    }

    pub fn is_quiet(&self) -> bool {
        self.is_quiet
    }

    // Writes the lines of the page, which then has none.
    fn flush(&mut self) {
        if !self.page.bytes().is_empty() {
            let written = result::write_output(self.rt, self.page.bytes());
            self.is_failed = self.is_failed || !written;
            self.page = Line::new();
        }
    }

    // Puts a line onto the page.
    fn put(&mut self, line: &[u8]) {
        if self.page.bytes().len() > PAGE - LONGEST {
            self.flush();
        }
        self.page.put_line(line);
    }

    // A line, which begins with the name of the file.
    fn line(&self) -> Line<9216> {
        let mut line = Line::new();
        line.put(self.name);
        line
    }

    // Puts a sentence about a place onto the page, and the nearest name behind it where there is one.
    fn put_told(&mut self, place: Place, saying: Saying, part: &[u8], near: &[u8]) {
        let mut line = self.line();
        line.put(b":");
        line.put_decimal(place.line);
        line.put(b":");
        line.put_decimal(place.column);
        line.put(b": ");
        sayings::put_sentence(&mut line, saying, part);
        if !near.is_empty() {
            line.put(b"; the nearest name is {");
            line.put(near);
            line.put(b"}");
        }
        self.put(line.bytes());
    }

    // Counts one more of a kind; how many there are with it.
    fn count(&mut self, saying: Saying) -> usize {
        let count = &mut self.counts[saying as usize];
        *count = count.saturating_add(1);
        *count
    }

    // Tells a fault or a remark, unless nothing is to be written or too much was.
    pub fn tell(&mut self, place: Place, saying: Saying, part: &[u8], near: &[u8]) {
        self.is_faulty = self.is_faulty || saying.is_fault();
        let count = self.count(saying);
        if !self.is_quiet && count <= MOST {
            self.put_told(place, saying, part, near);
        }
    }

    // The same with nothing of the text in it.
    pub fn tell_bare(&mut self, place: Place, saying: Saying) {
        self.tell(place, saying, b"", b"");
    }

    // Tells a fault of a whole line, or of a text at its first line.
    pub fn tell_line(&mut self, k: usize, saying: Saying, part: &[u8]) {
        self.tell(Place { line: k, column: 1 }, saying, part, b"");
    }

    // Tells how many more of one kind there were.
    fn tell_more(&mut self, saying: Saying) {
        let count = self.counts[saying as usize];
        if count > MOST {
            let mut line = self.line();
            line.put(b": ");
            line.put_decimal(count - MOST);
            line.put(b" more: ");
            sayings::put_sentence(&mut line, saying, b"..");
            self.put(line.bytes());
        }
    }

    // Ends what is told of a file, but for its last line.
    pub fn tell_rest(&mut self) {
        if !self.is_quiet {
            for saying in KINDS {
                self.tell_more(saying);
            }
        }
    }

    // The last line about a file in which no line decides.
    pub fn close(&mut self) {
        let mut line = self.line();
        line.put(b": dialect basicv2: no line decides for tsb");
        self.put(line.bytes());
    }

    // The last line about a file that a word decides, which stands at a place.
    pub fn close_by(&mut self, place: Place, word: &[u8]) {
        let mut line = self.line();
        line.put(b": dialect tsb: line ");
        line.put_decimal(place.line);
        line.put(b" decides, by ");
        line.put(word);
        line.put(b", column ");
        line.put_decimal(place.column);
        self.put(line.bytes());
    }

    // What the file comes to, once all of it is told.
    pub fn end(&mut self) -> Status {
        self.flush();
        let found = if self.is_faulty {
            Status::Refused
        } else {
            Status::Done
        };
        desk_status::written(!self.is_failed, found)
    }
}

// Says on standard error why there is no result.
pub fn refuse(rt: &HostRuntime, name: &[u8], refusal: Refusal) -> bool {
    let mut text = [0u8; 128];
    let n = say_sentences::sentence(base_refusals::refusal_code(refusal), &mut text);
    let mut line = Line::<9216>::new();
    line.put(name);
    line.put(b": ");
    line.put(sayings::cut(&text, 0, n));
    saying::tell(rt, line.bytes())
}
