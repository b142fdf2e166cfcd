//! Units that are merged: the canonical spelling of the one unit, or the conflict.

use c_lexer::lex;
use c_parser::parse;
use c_tree::{Unit, write_unit};
use c_units::{MergeError, merge};
use hs_base::Items;
use std::alloc::{AllocError, Global};
use std::process::Abort;
use std::test::Fail;

/// The tree of a text, if it is short and has one.
fn unit(alloc: Global, text: &str) -> Option<Unit> {
    if text.len() > 1000 {
        return None;
    }
    let tokens = lex(alloc, text.as_bytes()).ok()?;
    parse(alloc, tokens.as_slice()).ok()
}

/// The trees of some texts, as many as have one.
fn units(alloc: Global, texts: &[&str]) -> Result<Items<Unit>, Fail> {
    let mut units = Items::new(alloc);
    for text in texts {
        if let Some(unit) = unit(alloc, text) {
            units.push(unit)?;
        }
    }
    Ok(units)
}

/// The spelling of the merge of some units, or the conflict with its line.
fn merged(alloc: Global, units: Items<Unit>) -> Result<Vec<u8>, AllocError> {
    let mut out = Vec::new(alloc);
    if units.is_empty() || units.len() > 64 {
        return Ok(out);
    }
    match merge(alloc, units) {
        Ok(unit) => match write_unit(alloc, &unit) {
            Ok(text) => out.extend_from_slice(text.as_slice())?,
            Err(_) => out.extend_from_slice(b"no memory")?,
        },
        Err(MergeError::Conflict { name, line }) => {
            out.extend_from_slice(format!(in alloc; "{line}: ")?.as_bytes())?;
            out.extend_from_slice(name.as_slice())?;
        }
        Err(MergeError::NoMemory) => out.extend_from_slice(b"no memory")?,
    }
    Ok(out)
}

/// Each row's texts give what stands beside them.
fn agree(rt: &impl Abort, alloc: Global, rows: &[(&[&str], &str)]) -> Result<(), Fail> {
    for (texts, expected) in rows {
        let units = units(alloc, texts)?;
        let count = units.len();
        assert_eq!(rt; count, texts.len());
        let found = merged(alloc, units)?;
        assert_eq!(rt; found.as_slice(), expected.as_bytes());
    }
    Ok(())
}

/// One unit is its own. Of several each has its statics for itself, where its own scopes bind a name to them.
#[test]
fn statics(rt: HostRuntime) -> Result<(), Fail> {
    let alloc = rt.alloc();
    let rows: [(&[&str], &str); 6] = [
        (
            &["static int x; int *p = &x;"],
            "static int x ;\nint * p = & x ;\n",
        ),
        (
            &[
                "static int x = 1; int *p = &x;",
                "static int x; int *q = &x;",
            ],
            "static int x.1 = 1 ;\nint * p = & x.1 ;\nstatic int x.2 ;\nint * q = & x.2 ;\n",
        ),
        (
            &[
                "int y;",
                "int *p = &x; static int x; int f(int x) { return x; } int g(void) { return x + y; }",
            ],
            "int y ;\nint * p = & x ;\nstatic int x.2 ;\nint f ( int x ) {\nreturn x ;\n}\nint g ( void ) {\nreturn x.2 + y ;\n}\n",
        ),
        (
            &[
                "int y;",
                "static int f(int), *p, q[2]; int f(int n) { struct f { int p; } q; q.p = n; return *p + f(q.p); }",
            ],
            "int y ;\nstatic int f.2 ( int ) , * p.2 , q.2 [ 2 ] ;\nint f.2 ( int n ) {\nstruct f {\nint p ;\n}\nq ;\nq . p = n ;\nreturn * p.2 + f.2 ( q . p ) ;\n}\n",
        ),
        (
            &[
                "int y;",
                "static int x; int f(int n) { for (int x = 0; x < n; x++) n += x; { enum { x }; n += x; } return x; }",
            ],
            "int y ;\nstatic int x.2 ;\nint f ( int n ) {\nfor ( int x = 0 ;\nx < n ;\nx ++ ) n += x ;\n{\nenum {\nx }\n;\nn += x ;\n}\nreturn x.2 ;\n}\n",
        ),
        (
            &[
                "int y;",
                "static int main(void); static int x; int f(int n, int a[sizeof x], int x) { return x; }",
            ],
            "int y ;\nstatic int main ( void ) ;\nstatic int x.2 ;\nint f ( int n , int a [ sizeof x.2 ] , int x ) {\nreturn x ;\n}\n",
        ),
    ];
    agree(&rt, alloc, &rows)
}

/// What an earlier unit has in the same words is left out, and what two units define of one name is a conflict.
#[test]
fn words_and_conflicts(rt: HostRuntime) -> Result<(), Fail> {
    let alloc = rt.alloc();
    let rows: [(&[&str], &str); 8] = [
        (
            &[
                "int f(void); struct s { int n; }; int g;",
                "int\nf(void); int g; struct s { int n; }; int h;",
            ],
            "int f ( void ) ;\nstruct s {\nint n ;\n}\n;\nint g ;\nint h ;\n",
        ),
        (
            &[
                "static int x;",
                "static int x; int y; int y;",
                "int y; static int y;",
            ],
            "static int x.1 ;\nstatic int x.2 ;\nint y ;\nint y ;\nint y.3 ;\nstatic int y.3 ;\n",
        ),
        (&["int x = 1;", "int y = 2;\nint z, x = 2;"], "2: x"),
        (
            &[
                "struct s { int n; };",
                "int f(struct s { long n; } *p);\nstruct s { int n;\nint m; };",
            ],
            "2: s",
        ),
        (
            &[
                "enum { A };",
                "typedef int t;",
                "struct { enum\n{ B, A } m;\n} v;",
            ],
            "2: A",
        ),
        (
            &[
                "typedef int t;",
                "int u;",
                "int f(void) { int t; { return t; } }\nint g(void) {\nreturn t; }",
            ],
            "3: t",
        ),
        (
            &["int t;", "struct t { int n; };\ntypedef struct t t;"],
            "2: t",
        ),
        (
            &[
                "int f(void) { return 1; }",
                "static int f(void) { return 2; }",
                "int f(void);\n\nint f(void) { return 3; }",
            ],
            "3: f",
        ),
    ];
    agree(&rt, alloc, &rows)
}
