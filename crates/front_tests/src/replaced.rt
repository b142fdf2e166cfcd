//! Texts with macros. What the first test expects was given by `cpp -P -undef` of GCC, and the second row is the example of
//! C99 6.10.3.5, with its result.

use crate::preprocessed::{agree, shown, texts};
use c_pre::{Pre, PreError, pre};
use std::alloc::{AllocError, Global};
use std::process::Abort;
use std::test::Fail;

/// The spellings of the tokens, each with a space behind it, or `-` for a refusal.
fn spelled(alloc: Global, answer: &Result<Pre, PreError>) -> Result<Vec<u8>, AllocError> {
    let mut out = Vec::new(alloc);
    match answer {
        Ok(pre) => {
            for token in pre.tokens.as_slice() {
                out.extend_from_slice(token.bytes.as_slice())?;
                out.extend_from_slice(b" ")?;
            }
        }
        Err(_) => out.extend_from_slice(b"-")?,
    }
    Ok(out)
}

/// Each text has the tokens that stand beside it.
fn spell(rt: &impl Abort, alloc: Global, rows: &[(&str, &str)]) -> Result<(), Fail> {
    for (text, expected) in rows {
        let mut held = texts(alloc, &[("a.c", text)], &[])?;
        let answer = pre(alloc, &mut held, "a.c", 0);
        let found = spelled(alloc, &answer)?;
        assert_eq!(rt; found.as_slice(), expected.as_bytes());
    }
    Ok(())
}

/// The tokens that `cpp` gives: hidden names, and the example of C99 6.10.3.5.
static HIDDEN_NAMES: [(&str, &str); 9] = [
    (
        "#define f(a) a*g\n#define g(a) f(a)\nint main(void){ int g = 3; return f(2)(9); }\n",
        "int main ( void ) { int g = 3 ; return 2 * 9 * g ; } ",
    ),
    (
        "#define x 3\n#define f(a) f(x * (a))\n#undef x\n#define x 2\n#define g f\n#define z z[0]\n#define h g(~\n#define m(a) a(w)\n#define w 0,1\n#define t(a) a\nf(y+1) + f(f(z)) % t(t(g)(0) + t)(1);\ng(x+(3,4)-w) | h 5) & m\n(f)^m(m);\n",
        "f ( 2 * ( y + 1 ) ) + f ( 2 * ( f ( 2 * ( z [ 0 ] ) ) ) ) % f ( 2 * ( 0 ) ) + t ( 1 ) ; f ( 2 * ( 2 + ( 3 , 4 ) - 0 , 1 ) ) | f ( 2 * ( ~ 5 ) ) & f ( 2 * ( 0 , 1 ) ) ^ m ( 0 , 1 ) ; ",
    ),
    ("#define A B\n#define B A\nA B\n", "A B "),
    ("#define A A B\n#define B A C\nA\n", "A A C "),
    ("#define f(x) x f\nf(1)(2)(3)\n", "1 f ( 2 ) ( 3 ) "),
    ("#define f() a\nf f() f( ) f(\n)\n", "f a a a "),
    (
        "#define f(x) [x]\nf() f( ) f((,)) f(f(1)) f\n",
        "[ ] [ ] [ ( , ) ] [ [ 1 ] ] f ",
    ),
    (
        "#define f(x,y) x y y\nf(,) f(a,) f(,b) f((a,b),c)\n",
        "a b b ( a , b ) c c ",
    ),
    ("#define f(x) x\nf\n#define g\n(1)\n", "f ( 1 ) "),
];

#[test]
fn hidden_names(rt: HostRuntime) -> Result<(), Fail> {
    spell(&rt, rt.alloc(), &HIDDEN_NAMES)
}

/// The tokens that `cpp` gives: calls that begin in a replacement.
static CALLS_IN_REPLACEMENTS: [(&str, &str); 9] = [
    ("#define f(x) x\nf f (f)(1)\n", "f f ( 1 ) "),
    (
        "#define LP (\n#define f(x) <x>\nf LP 1)\nf(LP 1)\n",
        "f ( 1 ) < ( 1 > ",
    ),
    ("#define f(x) x\n#define g f\ng(1) g (2) g\n(3)\n", "1 2 3 "),
    (
        "#define NIL(x) x\n#define G_0(x) NIL(G_1)(x)\n#define G_1(x) NIL(G_0)(x)\nG_0(42)\n",
        "G_0 ( 42 ) ",
    ),
    (
        "#define f(x) x x\n#define g(x) f(x) f\ng(g(1))(2)\n",
        "1 1 f 1 1 f 2 2 ",
    ),
    (
        "#define EMPTY\n#define f(x) {x}\nf EMPTY (1) f(EMPTY) EMPTY f\nEMPTY(2)\n",
        "f ( 1 ) { } f ( 2 ) ",
    ),
    (
        "#define int_ int\n#define if_ if\nint_ x; if_ (x) int_y;\n",
        "int x ; if ( x ) int_y ; ",
    ),
    ("#define a(x) b\n#define b a\na(1)(2)\n", "a ( 2 ) "),
    (
        "#define str \"f(x)\"\n#define f(x) x 'x' \"x\"\nf(str)\n",
        "\"f(x)\" 'x' \"x\" ",
    ),
];

#[test]
fn calls_in_replacements(rt: HostRuntime) -> Result<(), Fail> {
    spell(&rt, rt.alloc(), &CALLS_IN_REPLACEMENTS)
}

/// The tokens that `cpp` gives: arguments.
static ARGUMENTS: [(&str, &str); 8] = [
    (
        "#define f(a,b) a+b\n#define c 1,2\nf(c,c) f((c),c)\n",
        "1 , 2 + 1 , 2 ( 1 , 2 ) + 1 , 2 ",
    ),
    ("#define h(x) x(h\nh(h)(1))(2))\n", "h ( h ( 1 ) ) ( 2 ) ) "),
    ("#define o (x)\no o(1)\n", "( x ) ( x ) ( 1 ) "),
    (
        "#define f(x) g(x)\n#define g(x) f(x)\nf(f(g(1)))\n",
        "f ( f ( g ( 1 ) ) ) ",
    ),
    (
        "#define AA BB\n#define BB CC\n#define CC AA\nAA BB CC\n",
        "AA BB CC ",
    ),
    ("#define x y\n#define f(x) x y\nf(1) x\n", "1 y y "),
    (
        "#define foo foo a b c\n#define bar foo\nfoo bar\n",
        "foo a b c foo a b c ",
    ),
    (
        "#define max(a,b) ((a)>(b)?(a):(b))\nmax(max(1,2),max(3,4))\n",
        "( ( ( ( 1 ) > ( 2 ) ? ( 1 ) : ( 2 ) ) ) > ( ( ( 3 ) > ( 4 ) ? ( 3 ) : ( 4 ) ) ) ? ( ( ( 1 ) > ( 2 ) ? ( 1 ) : ( 2 ) ) ) : ( ( ( 3 ) > ( 4 ) ? ( 3 ) : ( 4 ) ) ) ) ",
    ),
];

#[test]
fn arguments(rt: HostRuntime) -> Result<(), Fail> {
    spell(&rt, rt.alloc(), &ARGUMENTS)
}

/// The tokens that `cpp` gives: macros with `...`. In a macro without it `__VA_ARGS__` is a name as others.
static DOTS: [(&str, &str); 10] = [
    (
        "#define f(...) [__VA_ARGS__]\nf() f(1) f(1, (2, 3), 4) f(f(1), f(2, 3))\n",
        "[ ] [ 1 ] [ 1 , ( 2 , 3 ) , 4 ] [ [ 1 ] , [ 2 , 3 ] ] ",
    ),
    (
        "#define f(a, ...) a:__VA_ARGS__;\nf(1, 2) f(1, 2, 3) f(1, ) f(, 2,) f((1, 2), (3), 4)\n",
        "1 : 2 ; 1 : 2 , 3 ; 1 : ; : 2 , ; ( 1 , 2 ) : ( 3 ) , 4 ; ",
    ),
    (
        "#define f(a, b, ...) b a __VA_ARGS__ a\n#define c 1, 2\nf(x, y, c) f(c, c, c, c)\n",
        "y x 1 , 2 x 1 , 2 1 , 2 1 , 2 , 1 , 2 1 , 2 ",
    ),
    (
        "#define call(f, ...) f(__VA_ARGS__)\n#define two(a, b) b a\n#define some(...) <__VA_ARGS__>\ncall(two, 1, 2) call(some) call(some, call, some, 1) call(call, some, 1, 2)\n",
        "2 1 < > < call , some , 1 > call ( some , 1 , 2 ) ",
    ),
    (
        "#define count(...) sixth(__VA_ARGS__, 5, 4, 3, 2, 1, 0)\n#define sixth(a, b, c, d, e, n, ...) n\ncount(x) count(x, y, z) count((x, y), z)\n",
        "1 3 2 ",
    ),
    (
        "#define a(...) b(__VA_ARGS__)\n#define b(...) a(__VA_ARGS__)\na(1, a(2, 3), b(4)) a\n(5,\n6)\n",
        "a ( 1 , a ( 2 , 3 ) , b ( 4 ) ) a ( 5 , 6 ) ",
    ),
    (
        "#define f(...) __VA_ARGS__\n#define p (\n#define q )\nf(f p 1, 2 q) f p 3, 4) f(p, q)\n",
        "f ( 1 , 2 ) f ( 3 , 4 ) ( , ) ",
    ),
    (
        "#define __VA_ARGS__ 7\n#define f(__VA_ARGS__) [__VA_ARGS__]\n#define g __VA_ARGS__\nf(1) g\n",
        "[ 1 ] 7 ",
    ),
    (
        "#define f(a, ...) a __VA_ARGS__\n#define f( a , ... ) a __VA_ARGS__\nf(1) f(1, f(2, 3, f(4, 5)), 6)\n",
        "1 1 2 3 , 4 5 , 6 ",
    ),
    (
        "#define f(a, ...) [a __VA_ARGS__]\nf() f(1)\n",
        "[ ] [ 1 ] ",
    ),
];

#[test]
fn dots(rt: HostRuntime) -> Result<(), Fail> {
    spell(&rt, rt.alloc(), &DOTS)
}

/// The lines of what `...` stands for, and what is no macro with it, no call of one, or another macro (C99 6.10.3).
static LINES_OF_DOTS: [(&str, &str); 9] = [
    (
        "#define f(a, ...) a __VA_ARGS__\n\nf(1,\n 2,\n 3)\n4\n",
        "3:1 3:2 3:, 3:3 6:4 | a.c:0 |",
    ),
    ("#define f(a, b, ...) a\n\nf(1)\n", "arguments a.c:3"),
    ("#define f(a, ...) a\nf(1, 2\n", "arguments a.c:2"),
    ("\n#define f(..., a) a\n", "bad directive a.c:2"),
    ("#define f(a...) a\n", "bad directive a.c:1"),
    ("#define f(..) a\n", "bad directive a.c:1"),
    ("#define f(....) a\n", "bad directive a.c:1"),
    ("#define f(__VA_ARGS__, ...) a\n", "bad directive a.c:1"),
    (
        "#define f(...) a\n#define f(__VA_ARGS__) a\n",
        "redefined a.c:2",
    ),
];

#[test]
fn lines_of_dots(rt: HostRuntime) -> Result<(), Fail> {
    agree(&rt, rt.alloc(), &LINES_OF_DOTS)
}

/// Replaced tokens have the line of the macro name in the text that led to them, and a refusal has that line too.
static LINES_OF_MACROS: [(&str, &str); 6] = [
    (
        "#define F(x) G x y\n#define G 1\n\na F(\nb G\n) c\nG\n",
        "4:a 4:1 4:b 4:1 4:y 6:c 7:1 | a.c:0 |",
    ),
    (
        "#define F(x) x\nint main(void){ return F(1, 2); }\n",
        "arguments a.c:2",
    ),
    ("#define F(x) x\n\nF\n(1\n\n", "arguments a.c:3"),
    ("#define F(x) x\nF(1\n#define G\n)\n", "arguments a.c:2"),
    ("#define F() x\nF( )\nF(1)\n", "arguments a.c:3"),
    ("#define F(x, y) x\nF((1, 2))\n", "arguments a.c:2"),
];

#[test]
fn lines_of_macros(rt: HostRuntime) -> Result<(), Fail> {
    agree(&rt, rt.alloc(), &LINES_OF_MACROS)
}

/// What ends a run, and from where on a macro holds.
static RUNS: [(&str, &str); 6] = [
    (
        "#define F(x) x\n#define G F(1, 2)\n\nF(G)\n",
        "arguments a.c:4",
    ),
    (
        "#define F(x) x\n#define G F(\n1 F(2\n G) )\n",
        "arguments a.c:4",
    ),
    // What ends a run: a directive, also one that includes a header. What is skipped is not expanded.
    (
        "#define F(x) x\nF\n#include <stdio.h>\n(1)\n",
        "2:F 4:( 4:1 4:) | a.c:0 |",
    ),
    (
        "#define F(x) x\n#ifdef A\nF(1, 2)\n#endif\nF(3)\n",
        "5:3 | a.c:0 |",
    ),
    // A macro holds from its definition on, and until its end.
    (
        "A\n#define A 1\nA\n#undef A\nA\n#define A 2\nA\n",
        "1:A 3:1 5:A 7:2 | a.c:0 |",
    ),
    ("#define A 08\nA\n", "bad number a.c:1"),
];

#[test]
fn runs(rt: HostRuntime) -> Result<(), Fail> {
    agree(&rt, rt.alloc(), &RUNS)
}

/// A macro from an included text, and a refusal in one with its own line.
#[test]
fn included_macros(rt: HostRuntime) -> Result<(), Fail> {
    let alloc = rt.alloc();
    let a = "#include \"b.h\"\n#ifdef TWO\nint main(void){ return ADD(1, TWO); }\n#endif\n";
    let b = "#define ADD(x, y) ((x) + (y))\n#define TWO 2\n";
    let mut held = texts(alloc, &[("a.c", a), ("b.h", b)], &[])?;
    let answer = pre(alloc, &mut held, "a.c", 0);
    let found = spelled(alloc, &answer)?;
    assert_eq!(rt;
        found.as_slice(),
        b"int main ( void ) { return ( ( 1 ) + ( 2 ) ) ; } ".as_slice()
    );
    let c = "\n\nADD(1)\n";
    let mut held = texts(
        alloc,
        &[
            ("a.c", "#include \"b.h\"\n#include \"c\"\n"),
            ("b.h", b),
            ("c", c),
        ],
        &[],
    )?;
    let answer = pre(alloc, &mut held, "a.c", 0);
    let found = shown(alloc, &answer)?;
    assert_eq!(rt; found.as_slice(), b"arguments c:3".as_slice());
    Ok(())
}

/// So many words `x`.
fn words(alloc: Global, count: usize, out: &mut String) -> Result<(), AllocError> {
    for _ in 0..count {
        out.push_str(" x")?;
    }
    Ok(())
}

/// The work of all texts ends at 4,000,000: each replacement is one, and each token that it puts in. Calls that stand in
/// one another take no room of the stack.
#[test]
fn work(rt: HostRuntime) -> Result<(), Fail> {
    let alloc = rt.alloc();
    let mut text = String::from_str(alloc, "#define F(x)")?;
    words(alloc, 2000, &mut text)?;
    text.push_str("\n#define G(x) x\n\nG(F(")?;
    for _ in 0..2000 {
        text.push_str("1 ")?;
    }
    text.push_str("))\n")?;
    let mut held = texts(alloc, &[("a.c", text.as_str())], &[])?;
    let answer = pre(alloc, &mut held, "a.c", 0);
    let found = shown(alloc, &answer)?;
    assert_eq!(rt; found.as_slice(), b"too much a.c:4".as_slice());
    let mut text = String::from_str(alloc, "#define F(x) x\n")?;
    for _ in 0..1000 {
        text.push_str("F(")?;
    }
    text.push_str("y")?;
    for _ in 0..1000 {
        text.push_str(")")?;
    }
    let mut held = texts(alloc, &[("a.c", text.as_str())], &[])?;
    let answer = pre(alloc, &mut held, "a.c", 0);
    let found = spelled(alloc, &answer)?;
    assert_eq!(rt; found.as_slice(), b"y ".as_slice());
    Ok(())
}
