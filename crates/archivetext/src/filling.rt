//! Room in a list of bytes.
ghost use Rattle.std.specs.Prelude.{◌≡◌};
ghost use Rattle.archivetext.specs.Packing.{Lengthened};

use std::alloc::AllocError;

/// Makes the bytes longer by that many.
pub(crate) fn lengthen(bytes: &mut Vec<u8>, more: usize) -> Result<(), AllocError>
    ensures { Lengthened bytes.old more result bytes.new }
{
    let blank = vec![in *bytes.allocator(); 0u8; more]?;
    bytes.extend_from_slice(&blank)
}
