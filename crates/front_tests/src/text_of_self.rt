//! The text with two functions.

use generated_text::generate;
use std::alloc::Global;
use std::test::Fail;

/// The lines of these bytes, each with its line feed.
fn joined(alloc: Global, lines: &[&[u8]]) -> Result<Vec<u8>, Fail> {
    let mut text = Vec::new(alloc);
    for line in lines {
        text.extend_from_slice(line)?;
        text.push(b'\n')?;
    }
    Ok(text)
}

#[test]
fn two_functions(rt: HostRuntime) -> Result<(), Fail> {
    let lines: [&[u8]; 6] = [
        b"#include <stdio.h>",
        b"#include <stdlib.h>",
        b"struct n { struct n *next; int v; };",
        b"int f0(int x) { struct n *a = malloc(sizeof(struct n)); struct n *b = malloc(sizeof(struct n)); a->next = b; b->next = a; a->v = x; b->v = 0; x = a->v + b->v; __delay_frees { free(a); free(b); } return x; }",
        b"int f1(int x) { struct n *a = malloc(sizeof(struct n)); struct n *b = malloc(sizeof(struct n)); a->next = b; b->next = a; a->v = x; b->v = 1; x = a->v + b->v; __delay_frees { free(a); free(b); } return x; }",
        b"int main(void) { int x = 0; x = f0(x); x = f1(x); printf(\"%d\\n\", x); return 0; }",
    ];
    let wanted = joined(rt.alloc(), &lines)?;
    let text = generate(rt.alloc(), 2)?;
    assert_eq!(rt; text.as_slice(), wanted.as_slice());
    Ok(())
}
