//! Parts of lists, and numbers in lists of bytes, the lowest byte first.

ghost use Rattle.std.specs.Prelude.{◌≡◌, ◌+◌, ◌<◌, ◌≤◌, ◌^◌, length, replicate};
ghost use Rattle.hs_base.specs.Access.{little_endian, bytes_of, overlaid};

use hs_base::Pointer;

/// The number that at most 8 bytes stand for.
pub(crate) fn number_of(bytes: &[u8]) -> u64
    requires { length bytes.now ≤ 8 }
    ensures value { result ≡ little_endian bytes.now }
    ensures bound { result < 256 ^ length bytes.now }
{
    match bytes {
        [] => 0,
        [low, high @ ..] => u64::from(*low) + 256 * number_of(high),
    }
}

/// Writes so many low bytes of a number at a place.
pub(crate) fn write_number(bytes: &mut [u8], at: usize, width: usize, value: u64)
    requires width { width ≤ 8 }
    requires inside { at + width ≤ length bytes.old }
    ensures len { length bytes.new ≡ length bytes.old }
    ensures bytes { bytes.new ≡ overlaid bytes.old at (bytes_of width value) }
{
    overlay_bytes(bytes, at, &value.to_le_bytes()[..width]);
}

/// Writes bytes over as many from a place on.
pub(crate) fn overlay_bytes(bytes: &mut [u8], at: usize, new: &[u8])
    requires { at + length new.now ≤ length bytes.old }
    ensures len { length bytes.new ≡ length bytes.old }
    ensures bytes { bytes.new ≡ overlaid bytes.old at new.now }
{
    bytes[at..at + new.len()].copy_from_slice(new);
}

/// Writes pointers over as many from a place on.
pub(crate) fn overlay_pointers(pointers: &mut [Pointer], at: usize, new: &[Pointer])
    requires { at + length new.now ≤ length pointers.old }
    ensures len { length pointers.new ≡ length pointers.old }
    ensures pointers { pointers.new ≡ overlaid pointers.old at new.now }
{
    pointers[at..at + new.len()].copy_from_slice(new);
}

/// Writes one byte over so many from a place on.
pub(crate) fn fill_bytes(bytes: &mut [u8], at: usize, n: usize, byte: u8)
    requires { at + n ≤ length bytes.old }
    ensures len { length bytes.new ≡ length bytes.old }
    ensures bytes { bytes.new ≡ overlaid bytes.old at (replicate n byte) }
{
    bytes[at..at + n].fill(byte);
}

/// Writes null over so many pointers from a place on.
pub(crate) fn clear_pointers(pointers: &mut [Pointer], at: usize, n: usize)
    requires { at + n ≤ length pointers.old }
    ensures len { length pointers.new ≡ length pointers.old }
    ensures pointers { pointers.new ≡ overlaid pointers.old at (replicate n Pointer.Null) }
{
    pointers[at..at + n].fill(Pointer::Null);
}
