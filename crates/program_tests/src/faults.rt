//! What is answered, written and left where a text, the input or a stream fails. Expected values are worked out by hand.

use crate::answers::{COPIES, Failing, HELD, NONE, TWO, answer};
use std::alloc::Global;
use std::process::Abort;
use std::test::Fail;

/// A text, its input, the call of each object that fails, and what is then written, said, left and answered.
#[derive(Clone, Copy)]
struct Row {
    text: &'static [u8],
    input: &'static [u8],
    failing: Failing,
    out: &'static [u8],
    err: &'static [u8],
    left: &'static [u8],
    status: u8,
}

/// A program that returns 0.
const NOTHING: &[u8] = b"int main(void){return 0;}";

/// A program that writes a byte and reads one.
const FIRST: &[u8] = b"int main(void){putchar('>');return getchar();}";

/// A program with every sort of printed item.
const PRINTS: &[u8] =
    b"int main(void){\nprintf(\"%d %u %d %d %lld|%5d|%-4s|%03d|%c%%\\n\", 2147483647 + 1, -1, -7 / 2, -7 % 2, 1LL << 40, -42, \"ab\", -5, 'z');\nreturn 0;}";

/// The first or the second call of the text fails, and a call of the error stream too.
static TEXTS: [Row; 3] = [
    Row {
        text: NOTHING,
        input: b"ab",
        failing: Failing { text: 1, ..NONE },
        out: b"",
        err: b"a.c: cannot read\n",
        left: b"ab",
        status: 121,
    },
    Row {
        text: NOTHING,
        input: b"ab",
        failing: Failing { text: 2, ..NONE },
        out: b"",
        err: b"a.c: cannot read\n",
        left: b"ab",
        status: 121,
    },
    Row {
        text: NOTHING,
        input: b"ab",
        failing: Failing {
            text: 1,
            err: 3,
            ..NONE
        },
        out: b"",
        err: b"a.",
        left: b"ab",
        status: 133,
    },
];

/// A call of the input fails, and a call of the error stream too.
static INPUTS: [Row; 4] = [
    Row {
        text: COPIES,
        input: b"hi",
        failing: Failing { input: 2, ..NONE },
        out: b"h",
        err: b"heapsafe: input fault\n",
        left: b"i",
        status: 132,
    },
    Row {
        text: COPIES,
        input: b"",
        failing: Failing { input: 1, ..NONE },
        out: b"",
        err: b"heapsafe: input fault\n",
        left: b"",
        status: 132,
    },
    Row {
        text: COPIES,
        input: b"hi",
        failing: Failing {
            input: 2,
            err: 1,
            ..NONE
        },
        out: b"h",
        err: b"",
        left: b"i",
        status: 133,
    },
    Row {
        text: FIRST,
        input: b"xyz",
        failing: Failing { input: 1, ..NONE },
        out: b">",
        err: b"heapsafe: input fault\n",
        left: b"xyz",
        status: 132,
    },
];

/// A call of the output fails, and a call of the error stream too.
static OUTPUTS: [Row; 8] = [
    Row {
        text: COPIES,
        input: b"hi",
        failing: Failing { out: 1, ..NONE },
        out: b"",
        err: b"heapsafe: output fault\n",
        left: b"i",
        status: 133,
    },
    Row {
        text: COPIES,
        input: b"hi!",
        failing: Failing { out: 2, ..NONE },
        out: b"h",
        err: b"heapsafe: output fault\n",
        left: b"!",
        status: 133,
    },
    Row {
        text: COPIES,
        input: b"hi!",
        failing: Failing {
            out: 2,
            input: 9,
            ..NONE
        },
        out: b"h",
        err: b"heapsafe: output fault\n",
        left: b"!",
        status: 133,
    },
    Row {
        text: TWO,
        input: b"ab",
        failing: Failing {
            out: 2,
            err: 1,
            ..NONE
        },
        out: b"a",
        err: b"",
        left: b"ab",
        status: 133,
    },
    Row {
        text: TWO,
        input: b"ab",
        failing: Failing {
            out: 2,
            err: 10,
            ..NONE
        },
        out: b"a",
        err: b"heapsafe:",
        left: b"ab",
        status: 133,
    },
    Row {
        text: HELD,
        input: b"",
        failing: Failing { err: 1, ..NONE },
        out: b"",
        err: b"",
        left: b"",
        status: 133,
    },
    Row {
        text: PRINTS,
        input: b"",
        failing: Failing { out: 45, ..NONE },
        out: b"-2147483648 4294967295 -3 -1 1099511627776| ",
        err: b"heapsafe: output fault\n",
        left: b"",
        status: 133,
    },
    Row {
        text: FIRST,
        input: b"xyz",
        failing: NONE,
        out: b">",
        err: b"",
        left: b"yz",
        status: 120,
    },
];

/// What a row says is so, for these words.
fn is_so(rt: &impl Abort, alloc: Global, words: &[&str], row: &Row) -> Result<(), Fail> {
    let seen = answer(alloc, words, row.text, row.input, row.failing)?;
    assert_eq!(rt; seen.status, row.status);
    assert_eq!(rt; seen.out.bytes(), row.out);
    assert_eq!(rt; seen.err.bytes(), row.err);
    assert_eq!(rt; seen.input.left(), row.left);
    Ok(())
}

/// What each row says is so, by `run` and by `mean`.
fn are_so(rt: &impl Abort, alloc: Global, rows: &[Row]) -> Result<(), Fail> {
    for row in rows {
        is_so(rt, alloc, &["run", "a.c"], row)?;
        is_so(rt, alloc, &["mean", "a.c"], row)?;
    }
    Ok(())
}

#[test]
fn each_object_fails(rt: HostRuntime) -> Result<(), Fail> {
    are_so(&rt, rt.alloc(), &TEXTS)?;
    are_so(&rt, rt.alloc(), &INPUTS)?;
    are_so(&rt, rt.alloc(), &OUTPUTS)
}

/// A program that leaves two objects.
const LEAVES: &[u8] = b"int main(void){ malloc(3);\nmalloc(5); return 7; }";

/// Words, a text, the call of the output and that of the error stream that fail, and what is then written, said and answered.
type Spoken = (
    &'static [&'static str],
    &'static [u8],
    u64,
    u64,
    &'static [u8],
    &'static [u8],
    u8,
);

/// The lines of leaks, of a summary and of a refusal, each cut where a stream fails.
static SPOKEN: [Spoken; 6] = [
    (
        &["run", "a.c", "--leaks"],
        LEAVES,
        0,
        0,
        b"",
        b"leak: line 1: 1 blocks, 3 bytes\nleak: line 2: 1 blocks, 5 bytes\n",
        7,
    ),
    (&["run", "a.c", "--leaks"], LEAVES, 0, 1, b"", b"", 133),
    (
        &["run", "a.c", "--leaks"],
        LEAVES,
        0,
        33,
        b"",
        b"leak: line 1: 1 blocks, 3 bytes\n",
        133,
    ),
    (
        &["run", "a.c", "--leaks"],
        LEAVES,
        0,
        64,
        b"",
        b"leak: line 1: 1 blocks, 3 bytes\nleak: line 2: 1 blocks, 5 bytes",
        133,
    ),
    (
        &["self", "1"],
        b"",
        7,
        0,
        b"self 1",
        b"heapsafe: output fault\n",
        133,
    ),
    (&[], b"", 0, 5, b"", b"heap", 133),
];

#[test]
fn lines_are_cut(rt: HostRuntime) -> Result<(), Fail> {
    for (words, text, out, err, written, said, status) in SPOKEN.iter() {
        let failing = Failing {
            out: *out,
            err: *err,
            ..NONE
        };
        let seen = answer(rt.alloc(), words, text, b"", failing)?;
        assert_eq!(rt; seen.status, *status);
        assert_eq!(rt; seen.out.bytes(), *written);
        assert_eq!(rt; seen.err.bytes(), *said);
    }
    Ok(())
}

/// A program that keeps a growing array of the numbers of its input, and writes them from the last to the first.
const NUMBERS: &[u8] =
    b"#include <stdio.h>\n#include <stdlib.h>\n\nstruct vec { int *buf; int len; int cap; };\n\nstatic void push(struct vec *v, int x) {\n  if (v->len == v->cap) {\n    v->cap = v->cap ? 2 * v->cap : 4;\n    v->buf = realloc(v->buf, v->cap * sizeof(int));\n  }\n  v->buf[v->len++] = x;\n}\n\nint main(void) {\n  struct vec v = {NULL, 0, 0};\n  int c, x = 0, in = 0, i;\n  long sum = 0;\n  while ((c = getchar()) != EOF) {\n    if (c >= '0' && c <= '9') { x = 10 * x + (c - '0'); in = 1; }\n    else if (in) { push(&v, x); x = 0; in = 0; }\n  }\n  for (i = v.len - 1; i >= 0; i--) { sum += v.buf[i]; printf(\"%d \", v.buf[i]); }\n  printf(\"\\n%d numbers, sum %ld\\n\", v.len, sum);\n  __delay_frees { free(v.buf); v.buf = NULL; }\n  return 0;\n}\n";

/// A front of a text that lacks the end of main has a directive that is cut, no tokens, no tree or no main, and nothing is
/// written.
#[test]
fn fronts_of_a_text(rt: HostRuntime) -> Result<(), Fail> {
    for length in 0..NUMBERS.len() - 1 {
        let seen = answer(rt.alloc(), &["run", "a.c"], &NUMBERS[..length], b"1 ", NONE)?;
        assert!(rt; matches!(seen.status, 123 | 124 | 125 | 138));
        assert_eq!(rt; seen.out.bytes(), b"".as_slice());
        assert_eq!(rt; seen.input.left(), b"1 ".as_slice());
    }
    Ok(())
}
