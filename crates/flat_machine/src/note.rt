//! Notes.

/// What is noted: a byte that is put, or that a byte is read.
#[derive(Clone, Copy)]
pub(crate) enum Note {
    Put(u8),
    Read,
}
