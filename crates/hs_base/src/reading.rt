//! Reading a whole text, a piece at a time.

ghost use Rattle.std.specs.Prelude.{◌≡◌, ◌≢◌, ◌+◌, ◌<◌, ◌≤◌, ◌^◌, List, ℕ, length, Some, IfOk, IfErr, IsTrue, false, vec_len};
ghost use Rattle.hs_base.specs.declared.reading.ReadError.TheVariants.{Fault, NoMemory, TooLong};
ghost use Rattle.hs_base.specs.ReadAll.{IsFront, Reads, ReadsMore, ReadCounts};

use crate::items::Items;
use crate::outside::{Failed, Texts};
use std::alloc::{AllocError, Global};
use thiserror::Error;

/// Why a text was not read whole.
#[derive(Clone, Copy, Debug, PartialEq, Eq, Error)]
pub enum ReadError {
    /// The texts failed.
    #[error("cannot read")]
    Fault,
    /// The text has more bytes than are taken.
    #[error("text too long")]
    TooLong,
    /// There is no memory for the text.
    #[error("no memory")]
    NoMemory,
}

impl From<Failed> for ReadError {
    ghost from_gives = { λ _ e. e ≡ Fault };

    fn from(_: Failed) -> ReadError {
        ReadError::Fault
    }
}

impl From<AllocError> for ReadError {
    ghost from_gives = { λ _ e. e ≡ NoMemory };

    fn from(_: AllocError) -> ReadError {
        ReadError::NoMemory
    }
}

/// Reads one piece more of a text, and says whether there was one.
fn read_more<T: Texts>(texts: &mut T, name: &str, text: &mut Vec<u8>) -> Result<bool, ReadError>
    requires { T.faults texts.old + 1 < 2 ^ 64 }
    ensures bytes { (told : List ℕ → List ℕ) → T.texts texts.old ≡ Some told →
        IsFront (told name.now) text.old.items →
        IfOk result (λ more. ReadsMore (told name.now) text.new.items more) }
    ensures done { IfOk result (λ more. more ≡ false → text.new.items ≡ text.old.items) }
    ensures short { IfErr result (λ e. e ≢ TooLong) }
    ensures longer { IfOk result (λ more. IsTrue more → vec_len text.old < vec_len text.new) }
    ensures keeps { T.texts texts.new ≡ T.texts texts.old }
    ensures cause { ReadCounts (T.faults texts.old) (T.faults texts.new) result }
{
    let mut piece = [0u8; 4096];
    let n = texts.piece(name, text.len() as u64, &mut piece)?;
    text.extend_from_slice(&piece[..n])?;
    Ok(n > 0)
}

/// Reads the text of a name whole, of at most so many bytes, and no further than the first piece that goes beyond them.
pub fn read_all<T: Texts>(
    alloc: Global,
    texts: &mut T,
    name: &str,
    most: u32,
) -> Result<Items<u8>, ReadError>
    requires { T.faults texts.old + 1 < 2 ^ 64 }
    ensures bytes { (told : List ℕ → List ℕ) → T.texts texts.old ≡ Some told →
        Reads (told name.now) most result }
    ensures short { IfOk result (λ text. length text ≤ most) }
    ensures keeps { T.texts texts.new ≡ T.texts texts.old }
    ensures cause { ReadCounts (T.faults texts.old) (T.faults texts.new) result }
{
    let most = most as usize;
    let mut text = Vec::new(alloc);
    'pieces: while text.len() <= most {
        if !read_more(texts, name, &mut text)? {
            return Ok(Items::from(text));
        }
    }
    Err(ReadError::TooLong)
}
