//! Places in a text.

ghost use Rattle.std.specs.Prelude.{◌≡◌, ◌+◌, ◌<◌, ◌≤◌, ◌^◌, length};
ghost use Rattle.c_lexer.specs.Tokens.{next_place, behind};

use crate::bytes::is_space;

/// A place in a text: its line, and whether no visible byte stands before it on that line.
#[derive(Clone, Copy, Debug, PartialEq, Eq)]
pub struct Place {
    /// Counted from 1. Behind the last byte of the longest text it is one more than any [`hs_base::Line`].
    pub line: u64,
    pub fresh: bool,
}

/// The place behind one byte.
#[tactic(auto, unfolding(crate::specs::Tokens::next_place))]
fn next_place(place: Place, byte: u8) -> Place
    requires { place.line + 1 < 2 ^ 64 }
    ensures place { result ≡ next_place place byte }
    ensures low { place.line ≤ result.line }
    ensures high { result.line ≤ place.line + 1 }
{
    if byte == b'\n' {
        Place {
            line: place.line + 1,
            fresh: true,
        }
    } else {
        Place {
            line: place.line,
            fresh: place.fresh && is_space(byte),
        }
    }
}

/// The place behind some bytes.
pub(crate) fn behind(place: Place, bytes: &[u8]) -> Place
    requires { place.line + length bytes.now < 2 ^ 64 }
    ensures place { result ≡ behind place bytes.now }
    ensures low { place.line ≤ result.line }
    ensures high { result.line ≤ place.line + length bytes.now }
{
    let mut here = place;
    for byte in bytes {
        here = next_place(here, *byte);
    }
    here
}
