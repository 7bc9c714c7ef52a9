// Whether = follows each list in parentheses. Lists stand within lists, so looking behind each of them by itself could take the square of a
// line's length. Here one pass from the line's end finds it for all of them, and keeps a bit for each.
//
// A text and its marks stay two parameters: the two scans know different blanks, so a struct of both would need a clause for them in each
// contract.
ghost use Rattle.std.specs.Prelude.{◌≡◌, cond, ◌*◌, ◌≤◌, ◌<◌, eqb, length};
ghost use Rattle.base_ascii.specs.Search.{of_kind};
ghost use Rattle.guess_uses.specs.MarkHelpers.{is_on, Turned, last_bit, MarksOf};

use base_ascii::search;
use base_ascii::search::Kind;

pub fn bit(bits: &[u8], n: usize) -> bool
    requires { n < 8 * length bits.now }
    ensures { result ≡ is_on bits.now n }
{
    (bits[n / 8] >> (n % 8)) % 2 == 1
}

fn put_bit(bits: &mut [u8], n: usize, on: bool)
    requires { n < 8 * length bits.old }
    ensures { Turned bits.old n on bits.new }
{
    if bit(bits, n) == on {
        return;
    }
    let worth = 1 << (n % 8);
    if on {
        bits[n / 8] += worth;
    } else {
        bits[n / 8] -= worth;
    }
}

// The last of so many bits.
fn last_bit(bits: &[u8], count: usize) -> bool
    requires { count ≤ 8 * length bits.now }
    ensures { result ≡ last_bit bits.now count }
{
    count > 0 && bit(bits, count - 1)
}

// Whether = follows from a byte on, with blanks before it, when that is known of what stands behind the byte.
fn equals_ahead(b: u8, blank: Kind, behind: bool) -> bool
    ensures { result ≡ cond (of_kind blank b) behind (eqb b 0x3D) }
{
    if search::is_kind(b, blank) {
        behind
    } else {
        b == b'='
    }
}

// Each ) adds a bit to `levels`: whether = follows. Each ( takes the last one away, which is that of the ) that ends its list.
// A space is asked for first, since no byte is more frequent: where it is a blank, it changes nothing.
fn mark_lists(line: &[u8], blank: Kind, marks: &mut [u8], levels: &mut [u8])
    requires { (length line.now ≤ 8 * length marks.old) × (length line.now ≤ 8 * length levels.old) }
    ensures { MarksOf blank line.now marks.new }
{
    let mut count: usize = 0;
    let mut ahead = false;
    for n in 0..line.len() {
        let b = line[line.len() - 1 - n];
        if b == b' ' && search::is_kind(b' ', blank) {
            continue;
        }
        if b == b')' {
            put_bit(levels, count, ahead);
            count += 1;
        } else if b == b'(' {
            let follows = last_bit(levels, count);
            put_bit(marks, n, follows);
            count = count.saturating_sub(1);
        }
        ahead = equals_ahead(b, blank, ahead);
    }
}

// Marks of a line that has at most eight bytes to each byte of room. The rooms are arrays, whose lengths their types tell.
pub fn mark<const N: usize>(line: &[u8], blank: Kind, marks: &mut [u8; N], levels: &mut [u8; N])
    requires { length line.now ≤ 8 * N }
    ensures { (length marks.new ≡ N) × MarksOf blank line.now marks.new }
{
    mark_lists(line, blank, marks, levels);
}
