// A digest, written into a lent buffer.
#![tactic(auto)]

ghost use Rattle.std.specs.Prelude.{◌≡◌};
ghost use Rattle.base_refusals.specs.Answer.{done};
ghost use Rattle.base_lent.specs.Lent.{into_buffer, left};
ghost use Rattle.digest_sha256.specs.Sha256.{digest_of};

use base_refusals::Refusal;

// Writes the SHA-256 of bytes into the start of a buffer: 32 bytes.
pub fn write_sha256(bytes: &[u8], out: &mut [u8]) -> Result<usize, Refusal>
    ensures { left result out.new ≡ into_buffer (done (digest_of bytes.now)) out.old }
{
    if out.len() < 32 {
        return Err(Refusal::NoRoom { needed: 32 });
    }
    let digest = digest_sha256::digest(bytes);
    out[..32].copy_from_slice(&digest);
    Ok(32)
}
