//! Lines, and which of them are directives.

ghost use Rattle.std.specs.Prelude.{◌≡◌, ◌+◌, ◌<◌, ◌≤◌, option_map, IfSome, length, take, drop};
ghost use Rattle.std.specs.List.{prefix_len};
ghost use Rattle.c_lexer.specs.Bytes.{is_space, is_name_byte};
ghost use Rattle.c_lexer.specs.Gaps.{is_on_line};
ghost use Rattle.c_pre.specs.Lines.{line_length, behind_spaces, behind_word, first_word, directive_rest};

use c_lexer::{is_name_byte, is_space};

/// How many bytes of white space a text begins with.
fn space_count(text: &[u8]) -> usize
    ensures count { result ≡ prefix_len is_space text.now }
    ensures bound { result ≤ length text.now }
{
    text.iter().take_while(|byte| is_space(**byte)).count()
}

/// How many bytes of a name a text begins with.
fn name_length(text: &[u8]) -> usize
    ensures count { result ≡ prefix_len is_name_byte text.now }
    ensures bound { result ≤ length text.now }
{
    text.iter().take_while(|byte| is_name_byte(**byte)).count()
}

/// How many bytes a text has before its first byte 10.
fn visible_length(text: &[u8]) -> usize
    ensures count { result ≡ prefix_len is_on_line text.now }
    ensures bound { result ≤ length text.now }
{
    text.iter().take_while(|byte| **byte != b'\n').count()
}

/// How many bytes the first line of a text has, with its byte 10.
fn line_length(text: &[u8]) -> usize
    ensures count { result ≡ line_length text.now }
    ensures bound { result ≤ length text.now }
    ensures some { 0 < length text.now → 0 < result }
{
    let visible = visible_length(text);
    if visible < text.len() {
        visible + 1
    } else {
        visible
    }
}

/// The first line of a text, with its byte 10.
pub(crate) fn first_line(text: &[u8]) -> &[u8]
    ensures line { result.now ≡ take (line_length text.now) text.now }
    ensures len { length result.now ≡ line_length text.now }
    ensures bound { length result.now ≤ length text.now }
    ensures some { 0 < length text.now → 0 < length result.now }
{
    &text[..line_length(text)]
}

/// A text without the white space at its front.
pub(crate) fn behind_spaces(text: &[u8]) -> &[u8]
    ensures rest { result.now ≡ behind_spaces text.now }
    ensures bound { length result.now ≤ length text.now }
{
    &text[space_count(text)..]
}

/// What stands behind the first word of a text.
pub(crate) fn behind_word(text: &[u8]) -> &[u8]
    ensures { result.now ≡ behind_word text.now }
{
    let word = behind_spaces(text);
    &word[name_length(word)..]
}

/// The first word of a text: the letters, digits and underscores that stand behind its white space.
pub(crate) fn first_word(text: &[u8]) -> &[u8]
    ensures { result.now ≡ first_word text.now }
{
    let word = behind_spaces(text);
    &word[..name_length(word)]
}

/// What stands on a line behind its `#`, where the line is a directive (C99 6.10): its first visible byte is `#`.
pub(crate) fn directive_rest(line: &[u8]) -> Option<&[u8]>
    ensures rest { option_map (λ rest. rest.now) result ≡ directive_rest line.now }
    ensures bound { IfSome result (λ rest. length rest.now ≤ length line.now) }
{
    match behind_spaces(line) {
        [b'#', rest @ ..] => Some(rest),
        _ => None,
    }
}
