// What the bytes of a body are, one unit after the other, apart from how they are spelt. No tables are needed.
#![tactic(auto)]

ghost use Rattle.std.specs.Prelude.{◌≡◌, ◌+◌, ◌<◌, length, get_or, drop, cond};
ghost use Rattle.image_units.specs.Units.{unit_at, unquoted_unit, prefixed_unit, quoted_unit, toggled_mode, mode_behind};

// Where a place of a body stands.
#[derive(Clone, Copy)]
pub enum Mode {
    Plain,
    Quoted,
    // Behind a remark's token, up to the body's end.
    Remark,
    // Behind DATA's token, up to an unquoted colon.
    Data,
    QuotedData,
}

// What a walk over a body heeds: 64 as a prefix, 8F as the start of a remark, 83 as the start of the items of DATA, the tokens of BASIC 3.5.
#[derive(Clone, Copy)]
pub struct Rules {
    pub prefix: bool,
    pub remarks: bool,
    pub items: bool,
    pub basic35: bool,
}

// What stands at a place of a body.
#[derive(Clone, Copy)]
pub enum Unit {
    // A byte as a character: quoted, or below 80.
    Char(u8),
    // An unquoted byte of 80 or above.
    Token(u8),
    // The same under BASIC 3.5.
    Token35(u8),
    // The prefix 64 and the byte behind it.
    Pair(u8),
    // The prefix 64 with nothing behind it.
    Lone,
    // A byte of a remark.
    Remarked(u8),
}

// A unit, how many bytes of the body it takes, and the mode behind it.
#[derive(Clone, Copy)]
pub struct Taken {
    pub unit: Unit,
    pub used: usize,
    pub mode: Mode,
}

// The unit at place i of a body.
pub fn unit_at(body: &[u8], i: usize, mode: Mode, rules: Rules) -> Taken
    requires { i < length body.now }
    ensures { result ≡ unit_at rules mode (get_or body.now i 0) (drop (i + 1) body.now) }
{
    match mode {
        Mode::Plain => unquoted(body, i, Mode::Plain, rules),
        Mode::Data => unquoted(body, i, Mode::Data, rules),
        Mode::Quoted | Mode::QuotedData => quoted(body[i], mode),
        Mode::Remark => one(Unit::Remarked(body[i]), Mode::Remark),
    }
}

fn unquoted(body: &[u8], i: usize, mode: Mode, rules: Rules) -> Taken
    requires { i < length body.now }
    ensures { result ≡ unquoted_unit rules mode (get_or body.now i 0) (drop (i + 1) body.now) }
{
    let b = body[i];
    if b == 0x22 {
        return one(Unit::Char(b), toggled(mode));
    }
    if b == 0x64 {
        if rules.prefix {
            return prefixed(body, i, mode);
        }
        return one(Unit::Char(b), mode);
    }
    if b >= 0x80 {
        return one(token(rules.basic35, b), behind(rules, mode, b));
    }
    one(Unit::Char(b), behind(rules, mode, b))
}

// An unquoted byte of 80 or above.
fn token(basic35: bool, b: u8) -> Unit
    ensures { result ≡ cond basic35 (Unit.Token35 b) (Unit.Token b) }
{
    if basic35 {
        Unit::Token35(b)
    } else {
        Unit::Token(b)
    }
}

// The prefix at place i, and the byte behind it if there is one.
fn prefixed(body: &[u8], i: usize, mode: Mode) -> Taken
    requires { i < length body.now }
    ensures { result ≡ prefixed_unit mode (drop (i + 1) body.now) }
{
    match body.get(i + 1) {
        Some(b) => Taken {
            unit: Unit::Pair(*b),
            used: 2,
            mode,
        },
        None => one(Unit::Lone, mode),
    }
}

fn quoted(b: u8, mode: Mode) -> Taken
    ensures { result ≡ quoted_unit mode b }
{
    let behind = if b == 0x22 { toggled(mode) } else { mode };
    one(Unit::Char(b), behind)
}

fn one(unit: Unit, mode: Mode) -> Taken
    ensures { result ≡ record { unit = unit; used = 1; mode = mode } }
{
    Taken {
        unit,
        used: 1,
        mode,
    }
}

// The mode behind a quote.
fn toggled(mode: Mode) -> Mode
    ensures { result ≡ toggled_mode mode }
{
    match mode {
        Mode::Plain => Mode::Quoted,
        Mode::Quoted => Mode::Plain,
        Mode::Remark => Mode::Remark,
        Mode::Data => Mode::QuotedData,
        Mode::QuotedData => Mode::Data,
    }
}

// The mode behind an unquoted byte that is neither a quote nor a prefix.
fn behind(rules: Rules, mode: Mode, b: u8) -> Mode
    ensures { result ≡ mode_behind rules mode b }
{
    match mode {
        Mode::Plain => match b {
            0x8F if rules.remarks => Mode::Remark,
            0x83 if rules.items => Mode::Data,
            _ => mode,
        },
        Mode::Data => match b {
            0x3A => Mode::Plain,
            _ => mode,
        },
        _ => mode,
    }
}
