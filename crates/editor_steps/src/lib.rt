// What one step of a body is to an editor.
#![tactic(auto)]

ghost use Rattle.std.specs.Prelude.{◌≡◌};
ghost use Rattle.editor_steps.specs.StepFindings.{is_code, is_control, is_kept, finding_of, is_usual};

use body_rules::{Mode, Move};

// What a step is to an editor.
#[derive(Clone, Copy)]
pub enum Finding {
    // Nothing is said of it.
    Usual,
    // A TSB word is taken.
    TsbWord,
    // A zero byte is written, where the machine would end the line.
    Zero,
    // A { in a string begins no escape, and gives itself.
    Brace,
    // A control stands in the code, as a tab does.
    Control,
}

fn is_code(mode: Mode) -> bool
    ensures { result ≡ is_code mode }
{
    matches!(mode, Mode::Plain | Mode::Data)
}

fn is_control(b: u8) -> bool
    ensures { result ≡ is_control b }
{
    b < 0x20 || b == 0x7F
}

// Whether a byte is a { of a string that gives itself: an escape takes two bytes at least.
fn is_kept(mode: Mode, b: u8, used: usize) -> bool
    ensures { result ≡ is_kept mode b used }
{
    matches!(mode, Mode::String) && b == b'{' && used == 1
}

// What a step at a byte is.
pub fn finding_of(mode: Mode, b: u8, step: Move) -> Finding
    ensures { result ≡ finding_of mode b step }
{
    if step.prefixed {
        Finding::TsbWord
    } else if step.byte == 0 {
        Finding::Zero
    } else if is_kept(mode, b, step.used) {
        Finding::Brace
    } else if is_code(mode) && is_control(b) {
        Finding::Control
    } else {
        Finding::Usual
    }
}

// Whether nothing is told of it.
pub fn is_usual(finding: Finding) -> bool
    ensures { result ≡ is_usual finding }
{
    matches!(finding, Finding::Usual)
}
