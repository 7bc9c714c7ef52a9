// The highest of eight bytes, for a loop that passes eight at a time: where the processor has it, the compiler makes vector code of this.
ghost use Rattle.std.specs.Prelude.{◌+◌, ◌≤◌, length};
ghost use Rattle.text_domain.specs.EightHelpers.{Tops};

// A byte that none of the eight from a place on is above.
pub fn top_of_eight(text: &[u8], i: usize) -> u8
    requires { i + 8 ≤ length text.now }
    ensures { Tops text.now i result }
{
    let a = text[i].max(text[i + 1]).max(text[i + 2]).max(text[i + 3]);
    let b = text[i + 4]
        .max(text[i + 5])
        .max(text[i + 6])
        .max(text[i + 7]);
    a.max(b)
}
