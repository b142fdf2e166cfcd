//! Names, constants, literals and addresses (C99 6.4.5, 6.5.1, 6.5.3.2).

ghost use Rattle.std.specs.Prelude.{◌≡◌, IfOk, option_map};
ghost use Rattle.c_decls.specs.Named.{plain_named};
ghost use Rattle.c_decls.specs.Typed.{plain_typed};
ghost use Rattle.elab_base.specs.PlainFound.{plain_found};
ghost use Rattle.elaboration.specs.Rules.{constant_found, object_found, built_in_found, literal_found};
ghost use Rattle.elaboration.specs.Expressions.{address_answer};
ghost use Rattle.elab_base.specs.Outcomes.{Finds, at};
ghost use Rattle.c_decls.specs.Refusals.{Meets};
ghost use Rattle.elab_rules.specs.Steps.{name_found};

use c_decls::{Folded, Named, TypeError, Typed, address};
use core_tree::Atom;
use elab_base::{Elaborator, Fixed, Found, Spot};
use hs_base::{Line, NoMemory};

/// A constant.
pub fn constant_found(typed: Typed) -> Found
    ensures { plain_found result ≡ constant_found (plain_typed typed) }
{
    let value = match typed.folded {
        Folded::Is(number) => Atom::Int(number),
        Folded::Varies | Folded::Traps => Atom::Null,
    };
    Found::valued(typed, value)
}

/// An object of that number: a memory local inside a function, a variable at file scope.
fn object_found(typed: Typed, inner: bool, index: u32) -> Result<Found, NoMemory>
    ensures { IfOk result (λ found. plain_found found ≡ object_found (plain_typed typed) inner index) }
{
    if inner {
        return Ok(Found {
            typed,
            spot: Spot::Memory(Atom::Mem(index)),
            fixed: Fixed::Unknown,
        });
    }
    let number = index.checked_mul(2).ok_or(NoMemory)?;
    Ok(Found {
        typed,
        spot: Spot::Memory(Atom::Static(number)),
        fixed: Fixed::Inside(number, 0),
    })
}

/// `NULL`, or a constant.
fn built_in_found(typed: Typed) -> Found
    ensures { plain_found result ≡ built_in_found (plain_typed typed) typed.is_null }
{
    if typed.is_null {
        Found {
            typed,
            spot: Spot::Value(Atom::Null),
            fixed: Fixed::Nowhere,
        }
    } else {
        constant_found(typed)
    }
}

/// A name that has a type: a local in a register, an object, or a constant.
pub fn name_found(typed: Typed, inner: bool, named: Option<&Named>) -> Result<Found, NoMemory>
    ensures { IfOk result (λ found. plain_found found ≡ name_found typed inner named.entry) }
{
    match named {
        Some(Named::Register { index, .. }) => {
            let register = index.checked_mul(3).ok_or(NoMemory)?;
            Ok(Found {
                typed,
                spot: Spot::Local(register),
                fixed: Fixed::Unknown,
            })
        }
        Some(Named::Object { index, .. }) => object_found(typed, inner, *index),
        Some(Named::BuiltIn { .. }) => Ok(built_in_found(typed)),
        Some(
            Named::Function { .. }
            | Named::Typedef { .. }
            | Named::Constant { .. }
            | Named::Tag { .. },
        )
        | None => Ok(constant_found(typed)),
    }
}

/// A string literal that has a static.
pub fn literal_found(state: &Elaborator, typed: Typed, object: u32) -> Found
    ensures { at state.now result ≡ literal_found (plain_typed typed) (state.now, object) }
{
    let _ = state;
    Found {
        typed,
        spot: Spot::Memory(Atom::Static(object)),
        fixed: Fixed::Inside(object, 0),
    }
}

/// `&` of a place.
pub fn address_of(state: &Elaborator, line: Line, found: Found) -> Result<Found, TypeError>
    ensures { Finds state.now result (address_answer line state.now (plain_found found)) }
{
    let value = found.atom();
    Ok(Found {
        typed: address(state.alloc(), line, found.typed)?,
        spot: Spot::Value(value),
        fixed: found.fixed,
    })
}
