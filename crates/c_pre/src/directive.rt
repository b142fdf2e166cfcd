//! The forms of directives (C99 6.10).

ghost use Rattle.std.specs.Prelude.{◌≡◌, [], true, option_map, IfOk, IfSome};
ghost use Rattle.std.specs.List.{list_all};
ghost use Rattle.c_lexer.specs.Bytes.{is_digit};
ghost use Rattle.c_pre.specs.Directives.{is_name, is_sign, only_name, is_path_byte, path_of, included_name, include_of, takes_arguments, dots_from, names_from, signature_of, macro_behind, define_of, named_by, bytes_now, alone, is_line_number, line_of, directive_by, directive_of};

use crate::comments::begins_with;
use crate::copies::{copied, copied_tokens};
use crate::lines::behind_word;
use crate::macros::Macro;
use crate::parameters::Parameters;
use crate::text_name::TextName;
use c_lexer::{Token, TokenKind, is_name_byte};
use hs_base::{Items, NoMemory};
use std::alloc::Global;

/// The name of the parameter that `...` stands for.
const VARIADIC_NAME: &[u8] = b"__VA_ARGS__";

/// A directive.
#[derive(Drop)]
pub(crate) enum Directive {
    /// A `#` alone.
    Empty,
    /// `#include "name"`.
    Include(TextName),
    Define(Macro),
    Undefine(Items<u8>),
    /// `#ifdef name` or `#ifndef name`, whose lines are read where this is whether the name is defined.
    Group { name: Items<u8>, defined: bool },
    /// `#if` with these tokens behind it.
    If(Items<Token>),
    /// `#elif` with these tokens behind it.
    ElseIf(Items<Token>),
    Else,
    EndIf,
}

/// Whether a token is a name, and no keyword.
pub(crate) fn is_name(token: &Token) -> bool
    ensures { result ≡ is_name token.now }
{
    token.kind == TokenKind::Name
}

/// Whether a token is this sign of one byte.
pub(crate) fn is_sign(sign: u8, token: &Token) -> bool
    ensures { result ≡ is_sign sign token.now }
{
    token.bytes.as_slice() == [sign].as_slice()
}

/// The name that some tokens are.
fn only_name(tokens: &[Token]) -> Option<&[u8]>
    ensures { option_map (λ name. name.now) result ≡ only_name tokens.now }
{
    match tokens {
        [token] if is_name(token) => Some(token.bytes.as_slice()),
        _ => None,
    }
}

/// Whether a byte may stand in the name of an included text.
fn is_path_byte(byte: u8) -> bool
    ensures { result ≡ is_path_byte byte }
{
    is_name_byte(byte) || byte == b'-' || byte == b'.' || byte == b'/'
}

/// Whether all of these bytes may stand in the name of an included text.
fn are_path_bytes(bytes: &[u8]) -> bool
    ensures { result ≡ list_all is_path_byte bytes.now }
{
    bytes.iter().all(|byte| is_path_byte(*byte))
}

/// Some bytes, where they are the name of an included text: at least one, and only those that may stand in one.
fn path_of(bytes: &[u8]) -> Option<&[u8]>
    ensures name { option_map (λ name. name.now) result ≡ path_of bytes.now }
    ensures path { IfSome result (λ name. list_all is_path_byte name.now ≡ true) }
{
    if !bytes.is_empty() && are_path_bytes(bytes) {
        Some(bytes)
    } else {
        None
    }
}

/// The name of a text between the quotes of a literal.
fn included_name(literal: &[u8]) -> Option<&[u8]>
    ensures name { option_map (λ name. name.now) result ≡ included_name literal.now }
    ensures path { IfSome result (λ name. list_all is_path_byte name.now ≡ true) }
{
    if literal.len() < 2 {
        return None;
    }
    path_of(&literal[1..literal.len() - 1])
}

/// The name of the text that an `#include` with these tokens behind it names.
fn include_of(args: &[Token]) -> Option<&[u8]>
    ensures name { option_map (λ name. name.now) result ≡ include_of args.now }
    ensures path { IfSome result (λ name. list_all is_path_byte name.now ≡ true) }
{
    match args {
        [token] if token.kind == TokenKind::Str => included_name(token.bytes.as_slice()),
        _ => None,
    }
}

/// Whether a `(` stands right behind the name of a macro, in the rest of the line of its definition.
fn takes_arguments(rest: &[u8]) -> bool
    ensures { result ≡ takes_arguments rest.now }
{
    begins_with(b'(', behind_word(behind_word(rest)))
}

/// The parameters of a function-like macro, and what stands in its place.
#[derive(Drop)]
pub(crate) struct Signature {
    names: Parameters,
    /// Whether the last of them stands for `...`.
    variadic: bool,
    replacement: Items<Token>,
}

/// Reads what stands behind the first `.` of a `...`: two more and the `)`. The lexer makes a token of each.
fn read_dots(
    alloc: Global,
    names: Parameters,
    tokens: &[Token],
) -> Result<Option<Signature>, NoMemory>
    ensures { IfOk result (λ signature. signature ≡ dots_from names tokens.now) }
{
    let [second, third, sign, behind @ ..] = tokens else {
        return Ok(None);
    };
    let ends = is_sign(b'.', second) && is_sign(b'.', third) && is_sign(b')', sign);
    if !ends || names.has(VARIADIC_NAME) {
        return Ok(None);
    }
    let mut names = names;
    names.add(alloc, VARIADIC_NAME)?;
    Ok(Some(Signature {
        names,
        variadic: true,
        replacement: copied_tokens(alloc, behind)?,
    }))
}

/// Reads parameters, at least one, up to their `)`.
fn read_names(alloc: Global, tokens: &[Token]) -> Result<Option<Signature>, NoMemory>
    ensures { IfOk result (λ signature. signature ≡ names_from [] tokens.now) }
{
    let mut names = Parameters::new(alloc);
    let mut rest = tokens;
    while let [name, sign, behind @ ..] = rest {
        if is_sign(b'.', name) {
            return read_dots(alloc, names, &rest[1..]);
        }
        if !is_name(name) || names.has(name.bytes.as_slice()) {
            return Ok(None);
        }
        names.add(alloc, name.bytes.as_slice())?;
        if is_sign(b')', sign) {
            return Ok(Some(Signature {
                names,
                variadic: false,
                replacement: copied_tokens(alloc, behind)?,
            }));
        }
        if !is_sign(b',', sign) {
            return Ok(None);
        }
        rest = behind;
    }
    Ok(None)
}

/// Reads what stands behind the `(` of a function-like macro.
fn read_signature(alloc: Global, tokens: &[Token]) -> Result<Option<Signature>, NoMemory>
    ensures { IfOk result (λ signature. signature ≡ signature_of tokens.now) }
{
    let [first, rest @ ..] = tokens else {
        return Ok(None);
    };
    if is_sign(b')', first) {
        return Ok(Some(Signature {
            names: Parameters::new(alloc),
            variadic: false,
            replacement: copied_tokens(alloc, rest)?,
        }));
    }
    read_names(alloc, tokens)
}

/// Reads what stands behind the name of a macro, by whether a `(` stands right behind it.
fn read_macro(
    alloc: Global,
    function_like: bool,
    name: &[u8],
    behind: &[Token],
) -> Result<Option<Macro>, NoMemory>
    ensures { IfOk result (λ it. it ≡ macro_behind function_like name.now behind.now) }
{
    if !function_like {
        return Ok(Some(Macro {
            name: copied(alloc, name)?,
            parameters: None,
            variadic: false,
            replacement: copied_tokens(alloc, behind)?,
        }));
    }
    let [_, inner @ ..] = behind else {
        return Ok(None);
    };
    match read_signature(alloc, inner)? {
        None => Ok(None),
        Some(signature) => Ok(Some(Macro {
            name: copied(alloc, name)?,
            parameters: Some(signature.names),
            variadic: signature.variadic,
            replacement: signature.replacement,
        })),
    }
}

/// Reads what stands behind `define`: the tokens, and the whole rest of the line for the byte behind the name.
fn read_define(alloc: Global, rest: &[u8], args: &[Token]) -> Result<Option<Directive>, NoMemory>
    ensures { IfOk result (λ directive. directive ≡ define_of rest.now args.now) }
{
    match args {
        [name, behind @ ..] if is_name(name) => {
            let it = read_macro(alloc, takes_arguments(rest), name.bytes.as_slice(), behind)?;
            match it {
                Some(it) => Ok(Some(Directive::Define(it))),
                None => Ok(None),
            }
        }
        _ => Ok(None),
    }
}

/// What a directive does with a name.
#[derive(Clone, Copy)]
pub(crate) enum Naming {
    Undefine,
    Group { defined: bool },
}

/// The directive that does this with a name, where there is one.
fn with_name(
    alloc: Global,
    naming: Naming,
    name: Option<&[u8]>,
) -> Result<Option<Directive>, NoMemory>
    ensures { IfOk result (λ it. it ≡ option_map (named_by naming) (bytes_now name.entry)) }
{
    let Some(name) = name else {
        return Ok(None);
    };
    let name = copied(alloc, name)?;
    Ok(Some(match naming {
        Naming::Undefine => Directive::Undefine(name),
        Naming::Group { defined } => Directive::Group { name, defined },
    }))
}

/// Reads what stands behind `include`.
fn read_include(alloc: Global, args: &[Token]) -> Result<Option<Directive>, NoMemory>
    ensures { IfOk result (λ it. it ≡ option_map Directive.Include (include_of args.now)) }
{
    match include_of(args) {
        None => Ok(None),
        Some(name) => Ok(Some(Directive::Include(TextName::from_path(alloc, name)?))),
    }
}

/// A directive that has nothing behind its word.
fn alone(directive: Directive, args: &[Token]) -> Option<Directive>
    ensures { result ≡ alone directive args.now }
{
    if args.is_empty() {
        Some(directive)
    } else {
        None
    }
}

/// Whether a byte is a decimal digit.
#[tactic(auto, unfolding(c_lexer::specs::Bytes::is_digit))]
fn is_digit(byte: u8) -> bool
    ensures { result ≡ is_digit byte }
{
    (b'0'..=b'9').contains(&byte)
}

/// Whether a token is decimal digits alone.
fn is_line_number(token: &Token) -> bool
    ensures { result ≡ is_line_number token.now }
{
    token.bytes.as_slice().iter().all(|byte| is_digit(*byte))
}

/// Reads what stands behind `line`: a number, and the name of a text or none.
fn line_of(args: &[Token]) -> Option<Directive>
    ensures { result ≡ line_of args.now }
{
    match args {
        [number] if is_line_number(number) => Some(Directive::Empty),
        [number, name] if is_line_number(number) && name.kind == TokenKind::Str => {
            Some(Directive::Empty)
        }
        _ => None,
    }
}

/// Reads the directive of this word, by the tokens behind it and the whole rest of the line.
#[tactic(auto, unfolding(crate::specs::Directives::directive_by))]
fn read_by_word(
    alloc: Global,
    word: &[u8],
    rest: &[u8],
    args: &[Token],
) -> Result<Option<Directive>, NoMemory>
    ensures { IfOk result (λ directive. directive ≡ directive_by word.now rest.now args.now) }
{
    if word == b"define".as_slice() {
        read_define(alloc, rest, args)
    } else if word == b"include".as_slice() {
        read_include(alloc, args)
    } else if word == b"undef".as_slice() {
        with_name(alloc, Naming::Undefine, only_name(args))
    } else if word == b"ifdef".as_slice() {
        with_name(alloc, Naming::Group { defined: true }, only_name(args))
    } else if word == b"ifndef".as_slice() {
        with_name(alloc, Naming::Group { defined: false }, only_name(args))
    } else if word == b"if".as_slice() {
        Ok(Some(Directive::If(copied_tokens(alloc, args)?)))
    } else if word == b"elif".as_slice() {
        Ok(Some(Directive::ElseIf(copied_tokens(alloc, args)?)))
    } else if word == b"else".as_slice() {
        Ok(alone(Directive::Else, args))
    } else if word == b"endif".as_slice() {
        Ok(alone(Directive::EndIf, args))
    } else if word == b"line".as_slice() {
        Ok(line_of(args))
    } else {
        Ok(None)
    }
}

/// Reads the directive of a line: the tokens behind its `#`, and that rest of the line itself.
pub(crate) fn read_directive(
    alloc: Global,
    rest: &[u8],
    tokens: &[Token],
) -> Result<Option<Directive>, NoMemory>
    ensures { IfOk result (λ directive. directive ≡ directive_of rest.now tokens.now) }
{
    match tokens {
        [] => Ok(Some(Directive::Empty)),
        [word, args @ ..] => read_by_word(alloc, word.bytes.as_slice(), rest, args),
    }
}
