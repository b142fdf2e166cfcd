//! Texts with directives. Where a row is a C program, its tokens are also those that `cpp` gives.

ghost use Rattle.std.specs.Prelude.{◌≡◌, IfOk};

use c_pre::{Pre, PreError, pre};
use hs_base::{Items, MemTexts};
use std::alloc::{AllocError, Global};
use std::process::Abort;
use std::test::Fail;

/// Texts by name.
pub(crate) type Named<'a> = &'a [(&'a str, &'a str)];

/// Bytes as a list.
fn bytes(alloc: Global, text: &str) -> Result<Items<u8>, Fail> {
    Ok(Items::from(Vec::from_slice(alloc, text.as_bytes())?))
}

/// These texts. The calls with these numbers fail.
pub(crate) fn texts(alloc: Global, named: Named<'_>, fails: &[u64]) -> Result<MemTexts, Fail>
    ensures { IfOk result (λ texts. texts.plan.faults ≡ 0) }
{
    let mut list = Items::new(alloc);
    for (name, text) in named {
        list.push((bytes(alloc, name)?, bytes(alloc, text)?))?;
    }
    Ok(MemTexts::new(list, Items::from(Vec::from_slice(alloc, fails)?)))
}

/// Adds a place.
fn add_place(out: &mut Vec<u8>, name: &[u8], line: u32) -> Result<(), AllocError> {
    let alloc = *out.allocator();
    out.extend_from_slice(name)?;
    out.extend_from_slice(format!(in alloc; ":{line}")?.as_bytes())
}

/// An answer in one line: each token with its line, and then the texts with their bases; or what is refused.
pub(crate) fn shown(alloc: Global, answer: &Result<Pre, PreError>) -> Result<Vec<u8>, AllocError> {
    let mut out = Vec::new(alloc);
    match answer {
        Ok(pre) => {
            for token in pre.tokens.as_slice() {
                let line = token.line;
                out.extend_from_slice(format!(in alloc; "{line}:")?.as_bytes())?;
                out.extend_from_slice(token.bytes.as_slice())?;
                out.extend_from_slice(b" ")?;
            }
            for opened in pre.texts.as_slice() {
                out.extend_from_slice(b"| ")?;
                add_place(&mut out, opened.name.as_slice(), opened.base)?;
                out.extend_from_slice(b" ")?;
            }
            out.extend_from_slice(b"|")?;
        }
        Err(PreError::Bad { kind, at }) => {
            out.extend_from_slice(kind.word().as_bytes())?;
            out.extend_from_slice(b" ")?;
            add_place(&mut out, at.name.as_slice(), at.line)?;
        }
        Err(PreError::Lex { kind, at }) => {
            out.extend_from_slice(kind.word().as_bytes())?;
            out.extend_from_slice(b" ")?;
            add_place(&mut out, at.name.as_slice(), at.line)?;
        }
        Err(PreError::Fault { name }) => {
            out.extend_from_slice(b"fault ")?;
            out.extend_from_slice(name.as_slice())?;
        }
        Err(PreError::TooLong { name }) => {
            out.extend_from_slice(b"too long ")?;
            out.extend_from_slice(name.as_slice())?;
        }
        Err(PreError::NoMemory) => out.extend_from_slice(b"no memory")?,
    }
    Ok(out)
}

/// Each text gives what stands beside it, which starts with the tokens.
pub(crate) fn agree(rt: &impl Abort, alloc: Global, rows: &[(&str, &str)]) -> Result<(), Fail> {
    for (text, expected) in rows {
        let mut held = texts(alloc, &[("a.c", text)], &[])?;
        let answer = pre(alloc, &mut held, "a.c", 0);
        let found = shown(alloc, &answer)?;
        assert_eq!(rt; found.as_slice(), expected.as_bytes());
    }
    Ok(())
}

/// Groups of lines, read and skipped.
static GROUPS: [(&str, &str); 8] = [
    // Nothing, and text alone.
    ("", "| a.c:0 |"),
    ("int x;\n", "1:int 1:x 1:; | a.c:0 |"),
    // A group that is left open (at its line), and the same closed.
    ("#ifdef A\nint main(void){return 0;}\n", "unbalanced a.c:1"),
    ("#ifdef A\nx\n#endif\ny\n", "4:y | a.c:0 |"),
    ("#ifndef A\nx\n#else\ny\n#endif\n", "2:x | a.c:0 |"),
    ("#ifdef A\nx\n#else\ny\n#endif\n", "4:y | a.c:0 |"),
    (
        "#define A\n#ifdef A\nx\n#else\ny\n#endif\n",
        "3:x | a.c:0 |",
    ),
    (
        "#define A\n#undef A\n#undef B\n#ifdef A\nx\n#endif\n",
        "| a.c:0 |",
    ),
];

#[test]
fn groups(rt: HostRuntime) -> Result<(), Fail> {
    agree(&rt, rt.alloc(), &GROUPS)
}

/// Groups in one another, and groups that are not balanced.
static NESTED_GROUPS: [(&str, &str); 10] = [
    // Groups in one another. What is skipped is not read, but for its nesting.
    (
        "#ifdef A\n#if 1\n#else\nx\n#else\n#elif 2\n#endif\n@ '\n# bad\n#else\ny\n#endif\n",
        "11:y | a.c:0 |",
    ),
    ("#ifdef A\n#elif 1\nx\n#endif\n", "3:x | a.c:0 |"),
    ("#ifndef A\n#elif 'x\ny\n#endif\n", "| a.c:0 |"),
    ("#ifdef A\n#else\n#else\n#endif\n", "unbalanced a.c:3"),
    ("#ifndef A\n#else\n#else\n#endif\n", "unbalanced a.c:3"),
    ("#ifndef A\n#else\n#elif 1\n#endif\n", "unbalanced a.c:3"),
    ("x\n#else\n", "unbalanced a.c:2"),
    ("x\n#endif\n", "unbalanced a.c:2"),
    ("#ifdef A\n#ifdef B\n", "unbalanced a.c:1"),
    ("#ifndef A\n#ifdef B\n#endif\n", "unbalanced a.c:1"),
];

#[test]
fn nested_groups(rt: HostRuntime) -> Result<(), Fail> {
    agree(&rt, rt.alloc(), &NESTED_GROUPS)
}

/// Lines that a backslash joins with the next one (C99 5.1.1.2), and a byte order mark.
static SPLICES: [(&str, &str); 8] = [
    ("#define A \\\n  1\nA\n", "3:1 | a.c:0 |"),
    ("#define A(x) x; \\\n\\\n", "bad byte a.c:1"),
    ("#define A(x) x +\\\n x\nA(2)\n", "3:2 3:+ 3:2 | a.c:0 |"),
    (
        "#define A(x) {\\\nx;\\\n}\nA(2)\n",
        "4:{ 4:2 4:; 4:} | a.c:0 |",
    ),
    ("x \\\n y\nz\n", "1:x 1:y 3:z | a.c:0 |"),
    ("// x \\\ny\n", "2:y | a.c:0 |"),
    ("#ifdef A\n it \\\n#endif\ny\n", "4:y | a.c:0 |"),
    ("\u{FEFF}#define A 1\nA\n", "2:1 | a.c:0 |"),
];

#[test]
fn splices(rt: HostRuntime) -> Result<(), Fail> {
    agree(&rt, rt.alloc(), &SPLICES)
}

/// Backslashes that join nothing: a token would stand on both lines, a directive or nothing follows, or they stand in a literal.
static NO_SPLICES: [(&str, &str); 7] = [
    ("x\\\ny\n", "bad byte a.c:1"),
    ("y\nx +\\\n+ y\n", "bad byte a.c:2"),
    ("x \\\n#define A\n", "bad byte a.c:1"),
    ("x \\\n", "bad byte a.c:1"),
    ("x \\", "bad byte a.c:1"),
    ("#ifdef A\n# \\\nendif\n#endif\ny\n", "5:y | a.c:0 |"),
    ("\"a \\\n b\"\n", "literal a.c:1"),
];

#[test]
fn no_splices(rt: HostRuntime) -> Result<(), Fail> {
    agree(&rt, rt.alloc(), &NO_SPLICES)
}

/// Lines of errors, and what says where a line comes from (C99 6.10.4 and 6.10.5).
static LINES_AND_ERRORS: [(&str, &str); 8] = [
    ("#error no\n", "error a.c:1"),
    ("x\n# error don't\n", "error a.c:2"),
    ("#ifdef A\n#error no\n#endif\ny\n", "4:y | a.c:0 |"),
    ("#line 7\nx\n", "2:x | a.c:0 |"),
    ("#line 7 \"b.y\"\nx\n", "2:x | a.c:0 |"),
    ("#line\n", "bad directive a.c:1"),
    ("#line 0x7\n", "bad directive a.c:1"),
    ("#line 7 b\n", "bad directive a.c:1"),
];

#[test]
fn lines_and_errors(rt: HostRuntime) -> Result<(), Fail> {
    agree(&rt, rt.alloc(), &LINES_AND_ERRORS)
}

/// Words without effect, each of which is read as `const` (C99 6.7.1, 6.7.3 and 6.7.4), but where it is a name of the preprocessor.
static IDLE_WORDS: [(&str, &str); 6] = [
    ("volatile int x;\n", "1:const 1:int 1:x 1:; | a.c:0 |"),
    ("int\n*restrict p;\n", "1:int 2:* 2:const 2:p 2:; | a.c:0 |"),
    (
        "register auto inline a\n",
        "1:const 1:const 1:const 1:a | a.c:0 |",
    ),
    ("#define A register\nA x\n", "2:const 2:x | a.c:0 |"),
    (
        "x \"auto\" inlined _auto\n",
        "1:x 1:\"auto\" 1:inlined 1:_auto | a.c:0 |",
    ),
    ("#define auto int\n", "bad directive a.c:1"),
];

#[test]
fn idle_words(rt: HostRuntime) -> Result<(), Fail> {
    agree(&rt, rt.alloc(), &IDLE_WORDS)
}

/// Directives of no form.
static BAD_DIRECTIVES: [(&str, &str); 7] = [
    // Directives of no form.
    ("#ifdef\n#endif\n", "bad directive a.c:1"),
    ("#ifdef A B\n#endif\n", "bad directive a.c:1"),
    ("#ifdef A\n#endif A\n", "bad directive a.c:2"),
    ("#ifndef A\n#endif A\n", "bad directive a.c:2"),
    ("#define 1\n", "bad directive a.c:1"),
    ("#define int long\n", "bad directive a.c:1"),
    ("#undef A B\n", "bad directive a.c:1"),
];

#[test]
fn bad_directives(rt: HostRuntime) -> Result<(), Fail> {
    agree(&rt, rt.alloc(), &BAD_DIRECTIVES)
}

/// Macros and includes of no form.
static BAD_DEFINITIONS: [(&str, &str); 9] = [
    ("#define F(a, a) a\n", "bad directive a.c:1"),
    ("#define F(a\n", "bad directive a.c:1"),
    ("#define F(a b) c\n", "bad directive a.c:1"),
    ("#include <foo.h>\n", "bad directive a.c:1"),
    ("#include \"a b\"\n", "bad directive a.c:1"),
    ("#include \"\"\n", "bad directive a.c:1"),
    ("#define F(x) #x\n", "bad byte a.c:1"),
    ("# #include <stdio.h>\n", "bad byte a.c:1"),
    ("x\n#define A 1.5\n", "bad number a.c:2"),
];

#[test]
fn bad_definitions(rt: HostRuntime) -> Result<(), Fail> {
    agree(&rt, rt.alloc(), &BAD_DEFINITIONS)
}

/// Definitions again, white space, and headers.
static DEFINITIONS_AND_HEADERS: [(&str, &str); 7] = [
    // Definitions again: the same tokens and parameters, or others. A `(` belongs to a macro right behind its name.
    (
        "#define A 1 +x\n#define A  1+ x\n#define F(a,b) a\n# define F( a , b )a\n#define G() (\n",
        "| a.c:0 |",
    ),
    ("#define A 1\n\n#define A 2\n", "redefined a.c:3"),
    ("#define F(a) a\n#define F(b) b\n", "redefined a.c:2"),
    ("#define A() 1\n#define A () 1\n", "redefined a.c:2"),
    // The empty directive, white space and carriage returns.
    (" \t#\r\n\r\nx\r\n#\n  #  \n", "3:x | a.c:0 |"),
    // An accepted header, and text behind it on its line.
    (
        "#include <stdio.h> int x; int\ny;\n#  include<limits.h>\nz",
        "1:int 1:x 1:; 1:int 2:y 2:; 4:z | a.c:0 |",
    ),
    ("#include <stdio.h> #define A\n", "bad byte a.c:1"),
];

#[test]
fn definitions_and_headers(rt: HostRuntime) -> Result<(), Fail> {
    agree(&rt, rt.alloc(), &DEFINITIONS_AND_HEADERS)
}

/// Comments become spaces before lines are read.
static COMMENTS: [(&str, &str); 6] = [
    ("a/* x\n\n */b", "1:a 3:b | a.c:0 |"),
    ("a//b\nc", "1:a 2:c | a.c:0 |"),
    ("a /*/ b */ c", "1:a 1:c | a.c:0 |"),
    ("a\n/* x\n", "open comment a.c:2"),
    ("a\n/*/", "open comment a.c:2"),
    (
        "/* 1 */ # /* 2 */ define /* 3\n*/ A\n",
        "bad directive a.c:1",
    ),
];

#[test]
fn comments(rt: HostRuntime) -> Result<(), Fail> {
    agree(&rt, rt.alloc(), &COMMENTS)
}

/// A literal that does not close ends with its line.
static COMMENTS_AND_LITERALS: [(&str, &str); 6] = [
    (
        "/* 1 */ # /* 2 */ define /* 3 */ A\n#ifdef A // 4\nx\n#endif /* 5 */\n",
        "3:x | a.c:0 |",
    ),
    (
        "'\"' \"/*\\\"//\" '\\'' /* ' */ x",
        "1:'\"' 1:\"/*\\\"//\" 1:'\\'' 1:x | a.c:0 |",
    ),
    ("x '/*\ny */ 1", "literal a.c:1"),
    ("#ifdef A\ndon't /* \n#endif\nx /* y */", "4:x | a.c:0 |"),
    ("#ifdef A\n/* \n#endif\n*/\n#endif\nx", "6:x | a.c:0 |"),
    ("#define A/**/(x) y\n#define A (x) y\n", "| a.c:0 |"),
];

#[test]
fn comments_and_literals(rt: HostRuntime) -> Result<(), Fail> {
    agree(&rt, rt.alloc(), &COMMENTS_AND_LITERALS)
}

/// Includes: the texts in order of opening with their bases, and refusals in an included text.
static INCLUDES: [(Named<'static>, &str); 9] = [
    (
        &[
            ("a.c", "#include \"b.h\"\n#ifdef TWO\nint x;\n#endif\n"),
            ("b.h", "#define ADD(x, y) ((x) + (y))\n#define TWO 2\n"),
        ],
        "3:int 3:x 3:; | a.c:0 | b.h:5 |",
    ),
    (&[("a.c", "#include \"b.h\"\n")], "fault b.h"),
    (&[("b.h", "")], "fault a.c"),
    (
        &[
            ("a.c", "x\n#include \"d/b-1.h\"\ny"),
            ("d/b-1.h", "p\n#include \"c_.h\"\nq"),
            ("c_.h", "r"),
        ],
        "1:x 4:p 7:r 6:q 3:y | a.c:0 | d/b-1.h:3 | c_.h:6 |",
    ),
    // A text that is included twice is opened twice, and an include of itself that a macro ends.
    (
        &[("a.c", "#include \"b\"\n#include \"b\"\n"), ("b", "x\n")],
        "4:x 6:x | a.c:0 | b:3 | b:5 |",
    ),
    (
        &[("a.c", "#ifndef A\n#define A\n#include \"a.c\"\nx\n#endif\n")],
        "4:x | a.c:0 | a.c:6 |",
    ),
    // Groups belong to their text.
    (
        &[("a.c", "#ifndef A\n#include \"b\"\n"), ("b", "\n#endif\n")],
        "unbalanced b:2",
    ),
    (
        &[("a.c", "#include \"b\"\n#endif\n"), ("b", "\n#ifdef A\n")],
        "unbalanced b:2",
    ),
    (&[("a.c", "#include \"b\"\n"), ("b", "x\n'")], "literal b:2"),
];

#[test]
fn includes(rt: HostRuntime) -> Result<(), Fail> {
    let alloc = rt.alloc();
    for (named, expected) in INCLUDES.iter() {
        let mut held = texts(alloc, named, &[])?;
        let answer = pre(alloc, &mut held, "a.c", 0);
        let found = shown(alloc, &answer)?;
        assert_eq!(rt; found.as_slice(), expected.as_bytes());
    }
    Ok(())
}

/// Seventeen texts, each in the one before.
static CHAIN: [(&str, &str); 17] = [
    ("1", "\n#include \"2\"\n"),
    ("2", "\n#include \"3\"\n"),
    ("3", "\n#include \"4\"\n"),
    ("4", "\n#include \"5\"\n"),
    ("5", "\n#include \"6\"\n"),
    ("6", "\n#include \"7\"\n"),
    ("7", "\n#include \"8\"\n"),
    ("8", "\n#include \"9\"\n"),
    ("9", "\n#include \"10\"\n"),
    ("10", "\n#include \"11\"\n"),
    ("11", "\n#include \"12\"\n"),
    ("12", "\n#include \"13\"\n"),
    ("13", "\n#include \"14\"\n"),
    ("14", "\n#include \"15\"\n"),
    ("15", "\n#include \"16\"\n"),
    ("16", "\n#include \"17\"\n"),
    ("17", "x"),
];

/// Sixteen texts may be open, one in another.
#[test]
fn depth(rt: HostRuntime) -> Result<(), Fail> {
    let alloc = rt.alloc();
    let mut held = texts(alloc, &CHAIN, &[])?;
    let answer = pre(alloc, &mut held, "1", 0);
    let found = shown(alloc, &answer)?;
    assert_eq!(rt; found.as_slice(), b"too deep 16:2".as_slice());
    let mut held = texts(alloc, &CHAIN, &[])?;
    let answer = pre(alloc, &mut held, "2", 0);
    let opened = match answer {
        Ok(pre) => pre.texts.len(),
        Err(_) => 0,
    };
    assert_eq!(rt; opened, 16);
    Ok(())
}

/// How many bytes were read, 0 at a refusal.
fn used_of(answer: &Result<Pre, PreError>) -> u32 {
    match answer {
        Ok(pre) => pre.used,
        Err(_) => 0,
    }
}

/// The bytes of all texts are counted, behind those that were read before, and a call that fails is a fault.
#[test]
fn bytes_and_faults(rt: HostRuntime) -> Result<(), Fail> {
    let alloc = rt.alloc();
    let named: Named<'_> = &[("a.c", "#include \"b\"\n"), ("b", "int x;")];
    let rows: [(&[u64], u32, &str, u32); 6] = [
        (&[], 0, "3:int 3:x 3:; | a.c:0 | b:2 |", 19),
        (&[], 1_048_557, "3:int 3:x 3:; | a.c:0 | b:2 |", 1_048_576),
        (&[], 1_048_558, "too long b", 0),
        (&[], 1_048_576, "too long a.c", 0),
        (&[2], 0, "fault a.c", 0),
        (&[3], 1_048_576, "too long a.c", 0),
    ];
    for (fails, before, expected, used) in rows {
        let mut held = texts(alloc, named, fails)?;
        let answer = pre(alloc, &mut held, "a.c", before);
        let found = shown(alloc, &answer)?;
        assert_eq!(rt; found.as_slice(), expected.as_bytes());
        let read = used_of(&answer);
        assert_eq!(rt; read, used);
    }
    let mut held = texts(alloc, named, &[3])?;
    let answer = pre(alloc, &mut held, "a.c", 0);
    let found = shown(alloc, &answer)?;
    assert_eq!(rt; found.as_slice(), b"fault b".as_slice());
    Ok(())
}
