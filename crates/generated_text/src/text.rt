//! The text with many functions.

ghost use Rattle.std.specs.Prelude.{◌≡◌, ◌≤◌, ◌+◌, ◌*◌, ◌++◌, codes, decimal, length, IfOk};
ghost use Rattle.std.specs.List.{flat_map, range_with_len};
ghost use Rattle.generated_text.specs.Text.{call, digits_below, ended, function_line, generated, head, main_line};

use hs_base::{Items, NoMemory};
use itoa::Buffer;
use std::alloc::Global;

/// Writes bytes as they are.
fn put(text: &mut Vec<u8>, bytes: &[u8]) -> Result<(), NoMemory>
    ensures { IfOk result (λ _. text.new.items ≡ text.old.items ++ bytes.now) }
{
    text.extend_from_slice(bytes)?;
    Ok(())
}

/// Writes a label and a number behind it.
fn put_number(text: &mut Vec<u8>, label: &[u8], number: u32) -> Result<(), NoMemory>
    ensures { IfOk result (λ _. text.new.items ≡ text.old.items ++ (label.now ++ decimal number)) }
{
    let mut digits = Buffer::new();
    put(text, label)?;
    put(text, digits.format(number).as_bytes())
}

/// Writes the function with this number.
fn put_function(text: &mut Vec<u8>, number: u32) -> Result<(), NoMemory>
    ensures { IfOk result (λ _. text.new.items ≡ text.old.items ++ ended (function_line number)) }
{
    put_number(text, b"int f", number)?;
    put(text, b"(int x) { struct n *a = malloc(sizeof(struct n));")?;
    put(text, b" struct n *b = malloc(sizeof(struct n));")?;
    put_number(
        text,
        b" a->next = b; b->next = a; a->v = x; b->v = ",
        number,
    )?;
    put(text, b"; x = a->v + b->v;")?;
    put(text, b" __delay_frees { free(a); free(b); } return x; }\n")
}

/// Writes the functions with the numbers below this one.
fn put_functions(text: &mut Vec<u8>, functions: u32) -> Result<(), NoMemory>
    ensures { IfOk result (λ _. text.new.items ≡ text.old.items ++ flat_map (λ i. ended (function_line i)) (range_with_len 0 functions)) }
{
    for number in 0..functions {
        put_function(text, number)?;
    }
    Ok(())
}

/// Writes a call of the function with this number.
fn put_call(text: &mut Vec<u8>, number: u32) -> Result<(), NoMemory>
    ensures { IfOk result (λ _. text.new.items ≡ text.old.items ++ call number) }
{
    put_number(text, b" x = f", number)?;
    put(text, b"(x);")
}

/// Writes calls of the functions with the numbers below this one.
fn put_calls(text: &mut Vec<u8>, functions: u32) -> Result<(), NoMemory>
    ensures { IfOk result (λ _. text.new.items ≡ text.old.items ++ flat_map call (range_with_len 0 functions)) }
{
    for number in 0..functions {
        put_call(text, number)?;
    }
    Ok(())
}

/// Writes main, which calls the functions with the numbers below this one.
fn put_main(text: &mut Vec<u8>, functions: u32) -> Result<(), NoMemory>
    ensures { IfOk result (λ _. text.new.items ≡ text.old.items ++ ended (main_line functions)) }
{
    put(text, b"int main(void) { int x = 0;")?;
    put_calls(text, functions)?;
    put(text, b" printf(\"%d\\n\", x); return 0; }\n")
}

/// Writes the lines before the functions.
fn put_head(text: &mut Vec<u8>) -> Result<(), NoMemory>
    ensures { IfOk result (λ _. text.new.items ≡ text.old.items ++ flat_map ended head) }
{
    put(text, b"#include <stdio.h>\n")?;
    put(text, b"#include <stdlib.h>\n")?;
    put(text, b"struct n { struct n *next; int v; };\n")
}

/// A C text with so many functions beside main, from 1 to 2,000. Its program prints the sum of the numbers below that.
///
/// # Errors
///
/// [`NoMemory`] only for want of memory.
pub fn generate(alloc: Global, n: u32) -> Result<Items<u8>, NoMemory>
    requires { (1 ≤ n) × (n ≤ 2000) }
    ensures text { IfOk result (λ text. text ≡ generated n) }
    ensures length { IfOk result (λ text. length text ≡ 135 + 215 * n + 3 * digits_below n) }
    ensures short { IfOk result (λ text. length text ≤ 1048576) }
{
    let mut text = Vec::new(alloc);
    put_head(&mut text)?;
    put_functions(&mut text, n)?;
    put_main(&mut text, n)?;
    Ok(Items::from(text))
}
