// What a listing is called: as crate `say_names` has it, in the folder that ./moldthatch gives in the place of OUT.
ghost use Rattle.std.specs.Prelude.{◌≤◌, length};

use desk::names;

// The listing's name, at the start of a buffer. Where one of 4,096 bytes has no room for all of it, it is full: no file has a name so long, and the
// system says so.
pub fn listing_name<'a>(rt: &HostRuntime, file: &[u8], out: &'a mut [u8]) -> &'a [u8]
    ensures { length result.now ≤ length out.old }
{
    let mut buf = io::buffer();
    let folder = names::name(rt, names::OUT, &mut buf);
    let count = say_names::listing_name(folder, file, out);
    &out[..count]
}
