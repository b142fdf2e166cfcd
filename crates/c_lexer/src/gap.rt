//! Comments and include lines.

ghost use Rattle.std.specs.Prelude.{◌≡◌, ◌≤◌, false, length, IfSome};
ghost use Rattle.std.specs.List.{prefix_len};
ghost use Rattle.c_lexer.specs.Bytes.{is_blank};
ghost use Rattle.c_lexer.specs.Gaps.{is_on_line, comment_end, front_of, headers, header_end, word_end, include_end};

use crate::bytes::is_blank;

/// How many bytes a text has before its first byte 10.
pub(crate) fn line_length(text: &[u8]) -> usize
    ensures count { result ≡ prefix_len is_on_line text.now }
    ensures bound { result ≤ length text.now }
{
    text.iter().take_while(|byte| **byte != b'\n').count()
}

/// How many bytes a text has up to and with its first `*/`, where it has one.
pub(crate) fn comment_end(text: &[u8]) -> Option<usize>
    ensures end { result ≡ comment_end false text.now }
    ensures bound { IfSome result (λ end. end ≤ length text.now) }
{
    let mut star = false;
    for (at, byte) in text.iter().enumerate() {
        if star && *byte == b'/' {
            return Some(1 + at);
        }
        star = *byte == b'*';
    }
    None
}

/// How many blanks a text begins with.
fn blank_count(text: &[u8]) -> usize
    ensures count { result ≡ prefix_len is_blank text.now }
    ensures bound { result ≤ length text.now }
{
    text.iter().take_while(|byte| is_blank(**byte)).count()
}

/// How many bytes the accepted header has that a text begins with, where it begins with one.
fn header_length(text: &[u8]) -> Option<usize>
    ensures end { result ≡ front_of headers text.now }
    ensures bound { IfSome result (λ end. end ≤ length text.now) }
{
    if text.starts_with(b"<stdio.h>") {
        Some(9)
    } else if text.starts_with(b"<stdlib.h>") {
        Some(10)
    } else if text.starts_with(b"<string.h>") {
        Some(10)
    } else if text.starts_with(b"<stddef.h>") {
        Some(10)
    } else if text.starts_with(b"<limits.h>") {
        Some(10)
    } else {
        None
    }
}

/// How many bytes a text has up to the end of the accepted header that stands behind its blanks, where one does.
#[tactic(auto, unfolding(crate::specs::Gaps::header_end))]
fn header_end(text: &[u8]) -> Option<usize>
    ensures end { result ≡ header_end text.now }
    ensures bound { IfSome result (λ end. end ≤ length text.now) }
{
    let blanks = blank_count(text);
    let end = header_length(&text[blanks..])?;
    Some(blanks + end)
}

/// How many bytes a text has up to the end of the accepted header behind the word `include`, where it begins so.
#[tactic(auto, unfolding(crate::specs::Gaps::word_end))]
fn word_end(text: &[u8]) -> Option<usize>
    ensures end { result ≡ word_end text.now }
    ensures bound { IfSome result (λ end. end ≤ length text.now) }
{
    let rest = text.strip_prefix(b"include")?;
    let end = header_end(rest)?;
    Some(7 + end)
}

/// How many bytes an accepted include line has behind its `#`, up to and with its `>`, where one stands there (C99 6.10.2).
#[tactic(auto, unfolding(crate::specs::Gaps::include_end))]
pub fn include_end(text: &[u8]) -> Option<usize>
    ensures end { result ≡ include_end text.now }
    ensures bound { IfSome result (λ end. end ≤ length text.now) }
{
    let blanks = blank_count(text);
    let end = word_end(&text[blanks..])?;
    Some(blanks + end)
}
