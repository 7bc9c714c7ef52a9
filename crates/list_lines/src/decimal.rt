// A line number in decimal.
ghost use Rattle.std.specs.Prelude.{◌≡◌, ◌+◌, ◌/◌, ◌%◌, ◌<◌, length};
ghost use Rattle.base_lent.specs.Stores.{Room, Put};
ghost use Rattle.base_steps.specs.Decimal.{decimal};

// How many digits a number takes.
pub fn places(n: u16) -> usize
    ensures { result ≡ length (decimal n) }
{
    match n {
        0..=9 => 1,
        10..=99 => 2,
        100..=999 => 3,
        1000..=9999 => 4,
        _ => 5,
    }
}

fn digit(n: u16, unit: u16) -> u8
    requires { 0 < unit }
    ensures { result ≡ 48 + n / unit % 10 }
{
    b'0' + (n / unit % 10) as u8
}

// Stores a number's digits from a place on, and answers the place behind them.
pub fn put_decimal(out: &mut [u8], at: usize, n: u16) -> usize
    requires { Room out.old at (decimal n) }
    ensures { Put out.old at (decimal n) result out.new }
{
    let digits = [
        digit(n, 10000),
        digit(n, 1000),
        digit(n, 100),
        digit(n, 10),
        digit(n, 1),
    ];
    let from = 5 - places(n);
    list_spelling::put(out, at, &digits[from..])
}
