//! Signs, which C99 6.4.6 calls punctuators.

ghost use Rattle.std.specs.Prelude.{◌≡◌, ◌<◌, length};
ghost use Rattle.c_lexer.specs.Signs.{is_double_sign, is_triple_sign};
ghost use Rattle.c_lexer.specs.Readers.{sign_length};

use crate::words::is_among;

/// Whether two bytes are a sign.
#[tactic(auto, unfolding(crate::specs::Signs::is_double_sign))]
fn is_double_sign(front: &[u8]) -> bool
    ensures { result ≡ is_double_sign front.now }
{
    is_among(
        front,
        &[
            b"->", b"++", b"--", b"<<", b">>", b"<=", b">=", b"==", b"!=", b"&&", b"||", b"*=",
            b"/=", b"%=", b"+=", b"-=", b"&=", b"^=", b"|=",
        ],
    )
}

/// Whether three bytes are a sign.
#[tactic(auto, unfolding(crate::specs::Signs::is_triple_sign))]
fn is_triple_sign(front: &[u8]) -> bool
    ensures { result ≡ is_triple_sign front.now }
{
    is_among(front, &[b"<<=", b">>="])
}

/// How many bytes the longest sign has that a text begins with, where its first byte is one.
#[tactic(auto, unfolding(crate::specs::Readers::sign_length))]
pub(crate) fn sign_length(text: &[u8]) -> usize
    requires { 0 < length text.now }
    ensures { result ≡ sign_length text.now }
{
    if text.len() >= 3 && is_triple_sign(&text[..3]) {
        3
    } else if text.len() >= 2 && is_double_sign(&text[..2]) {
        2
    } else {
        1
    }
}
