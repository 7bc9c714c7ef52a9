// Digests.
ghost use Rattle.std.specs.Prelude.{◌≡◌};
ghost use Rattle.base_refusals.specs.Answer.{done};
ghost use Rattle.base_lent.specs.Lent.{into_buffer};
ghost use Rattle.digest_sha256.specs.Sha256.{digest_of};
ghost use Rattle.moldthatch.specs.Told.{told_code};

use base_refusals::Code;

// Writes the SHA-256 of bytes into the start of a buffer: its length, 32.
#[unsafe(no_mangle)]
pub extern "C" fn moldthatch_sha256(bytes: &[u8], out: &mut [u8]) -> Code
    ensures { record { code = result; buffer = out.new } ≡ told_code (into_buffer (done (digest_of bytes.now)) out.old) }
{
    base_lent::outcome_code(library_digests::write_sha256(bytes, out))
}
