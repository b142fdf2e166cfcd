//! Addresses that are known before the run (C99 6.6).

ghost use Rattle.std.specs.Prelude.{◌≡◌, ◌*◌, IfOk};
ghost use Rattle.c_types.specs.Types.{plain};
ghost use Rattle.c_decls.specs.Typed.{operand};
ghost use Rattle.elab_base.specs.PlainFound.{plain_fixed, plain_found};
ghost use Rattle.elaboration.specs.Operations.{moved_by, moved_times, fixed_sum};
ghost use Rattle.elab_rules.specs.Steps.{Fixes, fixed_sum_of};

use c_decls::{Folded, Operand, operand_of};
use c_tree::BinaryOp;
use elab_base::{Elaborator, Fixed, Found};
use hs_base::NoMemory;

/// An address moved by a distance: it is not fixed where it leaves its object, or moves null.
pub fn moved_by(state: &Elaborator, distance: i128, fixed: Fixed) -> Result<Fixed, NoMemory>
    ensures { Fixes result (moved_by state.now distance (plain_fixed fixed)) }
{
    match fixed {
        Fixed::Unknown => Ok(Fixed::Unknown),
        Fixed::Nowhere => {
            if distance == 0 {
                Ok(Fixed::Nowhere)
            } else {
                Ok(Fixed::Unknown)
            }
        }
        Fixed::Inside(object, offset) => {
            let to = offset.checked_add(distance).ok_or(NoMemory)?;
            if 0 <= to && to <= i128::from(state.static_size(object)?) {
                Ok(Fixed::Inside(object, to))
            } else {
                Ok(Fixed::Unknown)
            }
        }
    }
}

/// An address moved by a constant times a size, up or down.
fn moved_times(
    state: &Elaborator,
    down: bool,
    size: u32,
    folded: Folded,
    fixed: Fixed,
) -> Result<Fixed, NoMemory>
    ensures { Fixes result (moved_times state.now down size folded (plain_fixed fixed)) }
{
    match folded {
        Folded::Is(number) => {
            let distance = number.checked_mul(i128::from(size)).ok_or(NoMemory)?;
            if down {
                moved_by(state, distance.checked_neg().ok_or(NoMemory)?, fixed)
            } else {
                moved_by(state, distance, fixed)
            }
        }
        Folded::Varies | Folded::Traps => Ok(Fixed::Unknown),
    }
}

/// The address that a sum or a difference of a pointer and an integer is.
fn fixed_sum_of(state: &Elaborator, down: bool, x: &Found, y: &Found) -> Result<Fixed, NoMemory>
    ensures { Fixes result (fixed_sum_of state.now down x.now y.now) }
{
    match operand_of(&x.typed.ty) {
        Operand::PointerTo(target) => match operand_of(&y.typed.ty) {
            Operand::Number(_) => {
                let size = state.size_or_zero(target)?;
                moved_times(state, down, size, y.typed.folded, x.fixed)
            }
            Operand::PointerTo(_) | Operand::Neither => Ok(Fixed::Unknown),
        },
        Operand::Number(_) => match operand_of(&y.typed.ty) {
            Operand::PointerTo(target) => {
                let size = state.size_or_zero(target)?;
                moved_times(state, down, size, x.typed.folded, y.fixed)
            }
            Operand::Number(_) | Operand::Neither => Ok(Fixed::Unknown),
        },
        Operand::Neither => Ok(Fixed::Unknown),
    }
}

/// The address that an operator's result is.
#[tactic(auto, unfolding(elaboration::specs::Operations::fixed_sum))]
pub fn fixed_sum(state: &Elaborator, op: BinaryOp, x: &Found, y: &Found) -> Result<Fixed, NoMemory>
    ensures { Fixes result (fixed_sum state.now op (plain_found x.now) (plain_found y.now)) }
{
    match op {
        BinaryOp::Add => fixed_sum_of(state, false, x, y),
        BinaryOp::Subtract => fixed_sum_of(state, true, x, y),
        _ => Ok(Fixed::Unknown),
    }
}
