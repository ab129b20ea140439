//! How many bytes a document may have.

ghost use Rattle.std.specs.Prelude.{◌≡◌, IfErr, OnOk};
ghost use Rattle.jsonpath.specs.Size.{Fits, IsTooLarge};
ghost use Rattle.jsonpath.specs.declared.fault.FindFault.TheVariants.{DocumentTooLarge};

use crate::fault::FindFault;

/// As many bytes are too many for a document: 2^32, since the tables that it is read into number its
/// bytes by 32 bits.
pub const TOO_MANY_BYTES: usize = 0x1_0000_0000;

/// Refuses bytes that are too many for a document, whatever they are. The only error is
/// `DocumentTooLarge`.
pub fn check_size(bytes: &[u8]) -> Result<(), FindFault>
    ensures fits { OnOk result (Fits bytes.now) }
    ensures too_large { IfErr result (λ fault. (fault ≡ DocumentTooLarge) × IsTooLarge bytes.now) }
{
    if bytes.len() < TOO_MANY_BYTES {
        Ok(())
    } else {
        Err(FindFault::DocumentTooLarge)
    }
}
