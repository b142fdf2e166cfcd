//! Elements and members (C99 6.5.2.1, 6.5.2.3).

ghost use Rattle.std.specs.Prelude.{◌≡◌, IfOk};
ghost use Rattle.c_types.specs.Types.{plain};
ghost use Rattle.c_decls.specs.Typed.{plain_typed, operand};
ghost use Rattle.elab_base.specs.PlainFound.{plain_found};
ghost use Rattle.elaboration.specs.Operations.{offset_of};
ghost use Rattle.elaboration.specs.Rules.{target_of, indexed, dotted, pointed};
ghost use Rattle.elab_base.specs.Outcomes.{Finds, Yields};
ghost use Rattle.c_decls.specs.Refusals.{Meets};
ghost use Rattle.elab_rules.specs.Steps.{member_of};

use crate::fixed::{fixed_sum, moved_by};
use crate::pointers::{combined, member_address, offset_of};
use c_decls::{Operand, TypeError, Typed, operand_of};
use c_tree::BinaryOp;
use c_typing::{arrow, dot, element};
use elab_base::{Elaborator, Fixed, Found, Spot};
use hs_base::{Line, NoMemory};

/// `e[f]`: the place at the sum of a pointer and an integer.
#[tactic(auto, using(crate::proofs::Cuts::cut_here))]
pub fn indexed(state: &mut Elaborator, line: Line, x: Found, y: Found) -> Result<Found, TypeError>
    ensures { Finds state.new result (indexed line state.old (plain_found x) (plain_found y)) }
{
    let fixed = fixed_sum(state, BinaryOp::Add, &x, &y)?;
    let (left, right) = (x.atom(), y.atom());
    let (left_type, right_type) = (x.typed.ty, y.typed.ty);
    let typed = element(line, state.tags(), x.typed, y.typed)?;
    let before = state.mark();
    let address = combined(
        state,
        line,
        BinaryOp::Add,
        before,
        &left_type,
        left,
        &right_type,
        right,
    )?;
    Ok(Found {
        typed,
        spot: Spot::Memory(address),
        fixed,
    })
}

/// The member at an offset of what is in hand.
fn member_of(
    state: &mut Elaborator,
    line: Line,
    offset: u32,
    typed: Typed,
    e: &Found,
) -> Result<Found, NoMemory>
    ensures { Yields state.new result (member_of line offset typed e.now state.old) }
{
    let fixed = moved_by(state, i128::from(offset), e.fixed)?;
    let address = member_address(state, line, offset, e.atom())?;
    Ok(Found {
        typed,
        spot: Spot::Memory(address),
        fixed,
    })
}

/// `e.name`
pub fn dotted(state: &mut Elaborator, line: Line, name: &[u8], e: Found) -> Result<Found, TypeError>
    ensures { Finds state.new result (dotted line name.now state.old (plain_found e)) }
{
    let typed = dot(state.alloc(), line, name, state.tags(), &e.typed)?;
    let offset = offset_of(state.tags(), name, &e.typed.ty);
    Ok(member_of(state, line, offset, typed, &e)?)
}

/// The offset of a member of what a pointer points to.
#[tactic(auto, unfolding(elaboration::specs::Operations::offset_of))]
fn offset_behind(state: &Elaborator, name: &[u8], e: &Found) -> u32
    ensures { result ≡ offset_of state.now.tags name.now (target_of (operand (plain e.now.typed.ty))) }
{
    match operand_of(&e.typed.ty) {
        Operand::PointerTo(target) => offset_of(state.tags(), name, target),
        Operand::Number(_) | Operand::Neither => 0,
    }
}

/// `e->name`
pub fn pointed(
    state: &mut Elaborator,
    line: Line,
    name: &[u8],
    e: Found,
) -> Result<Found, TypeError>
    ensures { Finds state.new result (pointed line name.now state.old (plain_found e)) }
{
    let typed = arrow(state.alloc(), line, name, state.tags(), &e.typed)?;
    let offset = offset_behind(state, name, &e);
    Ok(member_of(state, line, offset, typed, &e)?)
}
