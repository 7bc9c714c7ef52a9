// Prints what the tables give, for the checks in facts/, a heading before each part. The words of BASIC V2 and BASIC 3.5, a row a token: the
// token that crunching gives the text under BASIC 3.5, in hexadecimal, and the text that listing gives the token there; what this must print are
// the published tables, facts/rom-words.tsv and facts/basic35-words.tsv. Then the code of each escape that standard input names, a name to a line.
// Then, for each of the 256 bytes, the listing of a line that holds the byte alone, and of one that holds a quote and the byte.
#![tactic(auto)]

use escape_bytes::Escape;
use word_match::sets::Sets;
use word_tables::{Words, spellings};

// The descriptors of standard input and output.
const STDIN_FILENO: i32 = 0;

const STDOUT_FILENO: i32 = 1;

fn print_code(byte: u8) {
    io::write_all(
        STDOUT_FILENO,
        &[
            list_bytes::hex_digit(byte / 16),
            list_bytes::hex_digit(byte),
        ],
    );
}

// The token of a word or an operator, or 0.
fn token_of(text: &[u8], words: Words) -> u8 {
    let sets = Sets {
        tsb: false,
        demoted: [false; 123],
        basic35: true,
        forms: false,
    };
    word_match::match_plain(text, words, sets)
        .or(word_match::match_operator(text, words))
        .map_or(0, |found| found.token)
}

// A row: a token, and the word that it is listed as.
fn print_word(k: u8) {
    let text = list_texts::word35_at(list_texts::stored_texts(), k);
    print_code(token_of(text, spellings::stored_words()));
    io::write_all(STDOUT_FILENO, b"\t");
    io::write_all(STDOUT_FILENO, text);
    io::write_all(STDOUT_FILENO, b"\n");
}

fn print_words() {
    for k in 0x80..=0xFD {
        print_word(k);
    }
}

// A row: an escape's name and its code.
fn print_escape(name: &[u8]) {
    io::write_all(STDOUT_FILENO, name);
    io::write_all(STDOUT_FILENO, b"\t");
    match escapes::petscii_escape(name) {
        Some(Escape { byte, count: _ }) => print_code(byte),
        None => {
            io::write_all(STDOUT_FILENO, b"none");
        }
    }
    io::write_all(STDOUT_FILENO, b"\n");
}

fn print_escapes(names: &[u8]) {
    let mut from: usize = 0;
    for (i, b) in names.iter().enumerate() {
        if *b == b'\n' {
            print_escape(&names[from..i]);
            from = i + 1;
        }
    }
}

// A row: a byte, and the listing of an image of one line that holds it.
fn print_listing(byte: u8, image: &[u8]) {
    let mut text = [0u8; 64];
    print_code(byte);
    io::write_all(STDOUT_FILENO, b"\t");
    match list_image::list(image, &mut text) {
        Ok(n) => {
            io::write_all(STDOUT_FILENO, &text[..n.min(text.len())]);
        }
        Err(_) => {
            io::write_all(STDOUT_FILENO, b"refused\n");
        }
    }
}

fn print_listings() {
    for byte in 0..=255 {
        print_listing(byte, &[0x01, 0x08, 0x08, 0x08, 0, 0, byte, 0, 0, 0]);
        print_listing(byte, &[0x01, 0x08, 0x09, 0x08, 0, 0, b'"', byte, 0, 0, 0]);
    }
}

fn main() {
    let mut names = [0u8; 4096];
    let count = io::read_full(STDIN_FILENO, &mut names);
    io::write_all(STDOUT_FILENO, b"# words\n");
    print_words();
    io::write_all(STDOUT_FILENO, b"# escapes\n");
    print_escapes(&names[..count]);
    io::write_all(STDOUT_FILENO, b"# listings\n");
    print_listings();
}
