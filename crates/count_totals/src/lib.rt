// Totals of tokens: which numbers are totals, how many tokens they count, and each token's share (document 02, No. 12).
//
// Totals are 206 numbers. A token's count stands at the token's own number: those of V2 at 80 to CB, those of TSB at the byte behind 64.
// Behind them stand the images taken and, among these, the refused ones.
#![tactic(auto)]

ghost use Rattle.std.specs.Prelude.{◌≡◌, ◌+◌, ◌≤◌, min, length};
ghost use Rattle.count_totals.specs.TokenTotals.{is_totals, tokens_sum, tokens_counted, share_of};

// How many numbers totals have.
pub const LENGTH: usize = 206;

// Where the images taken stand, and among these the refused ones. Tokens stand below.
pub const TAKEN: usize = 0xCC;

pub const REFUSED: usize = 0xCD;

// An image has at most this many bytes, so fewer tokens than that.
const LONGEST: u64 = 1048576;

pub const MOST_IMAGES: u64 = 1000;

// Whether numbers are totals that images can give.
pub fn are_totals(totals: &[u64]) -> bool
    ensures { result ≡ is_totals totals.now }
{
    if totals.len() != LENGTH || totals[TAKEN] > MOST_IMAGES || totals[REFUSED] > totals[TAKEN] {
        return false;
    }
    let most = LONGEST * totals[TAKEN];
    sum_up_to(totals, most) <= most
}

// How many tokens are counted in all; none where the numbers are no totals.
pub fn tokens(totals: &[u64]) -> u64
    ensures { result ≡ tokens_counted totals.now }
{
    if are_totals(totals) {
        sum_up_to(totals, LONGEST * MOST_IMAGES)
    } else {
        0
    }
}

// The share of a token in all tokens counted, in thousandths, rounded down; 0 where none is counted, and of what is no token.
pub fn share(totals: &[u64], token: u8) -> u64
    ensures { result ≡ share_of totals.now token }
{
    let sum = tokens(totals);
    let k = usize::from(token);
    if sum == 0 || k >= TAKEN {
        return 0;
    }
    1000 * totals[k] / sum
}

// The tokens' counts together, or one more than most where they are more.
fn sum_up_to(totals: &[u64], most: u64) -> u64
    requires { (length totals.now ≡ 206) × (most ≤ 1048576000) }
    ensures { result ≡ min (tokens_sum totals.now) (most + 1) }
{
    let mut sum: u64 = 0;
    for count in &totals[..TAKEN] {
        if *count > most - sum {
            return most + 1;
        }
        sum += *count;
    }
    sum
}
