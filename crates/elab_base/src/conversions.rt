//! How places are read, and how values are converted, tested and written (C99 6.3).

ghost use Rattle.std.specs.Prelude.{◌≡◌, IfOk, unwrap_or};
ghost use Rattle.c_types.specs.Types.{plain};
ghost use Rattle.elaboration.specs.Conversions.{read_spot, valued_from, wanted_from, holds_all, convert_integer, convert_to, tested, write, size_or_zero};
ghost use Rattle.elab_base.specs.PlainFound.{plain_spot, plain_found};
ghost use Rattle.elab_base.specs.Changes.{coerced};
ghost use Rattle.elab_base.specs.Outcomes.{Emits, Finds};
ghost use Rattle.c_tree.specs.StatementView.{expr_view};
ghost use Rattle.c_types.specs.TagTable.{size_in};
ghost use Rattle.c_tree.specs.View.{expr_tree};
ghost use Rattle.c_decls.specs.Refusals.{Meets};
ghost use Rattle.c_decls.specs.Typed.{operand};
ghost use Rattle.elab_base.specs.Marks.{cut};

use crate::code::Mark;
use crate::elaborator::Elaborator;
use crate::found::{Fixed, Found, Spot};
use crate::sizes::size_in;
use c_decls::{Operand, TypeError, TypeKind, is_array, line_of, operand_of, refused};
use c_tree::Expr;
use c_types::{CType, IntType};
use core_tree::{Atom, StmKind};
use hs_base::{IntKind, Line, NoMemory};

/// Whether a kind holds every number of another.
fn holds_all(kind: IntKind, source: IntKind) -> bool
    ensures { result ≡ holds_all kind source }
{
    kind.least() <= source.least() && source.greatest() <= kind.greatest()
}

#[tactic(auto, unfolding(elaboration::specs::Conversions::read_spot, elaboration::specs::Conversions::convert_integer, elaboration::specs::Conversions::tested, elaboration::specs::Conversions::write))]
impl Elaborator {
    /// What a place of a type holds: a local is copied to a temporary, an object is loaded, an array is its address.
    pub fn read_spot(&mut self, line: Line, ty: &CType, spot: Spot) -> Result<Atom, NoMemory>
        ensures { Emits self.new result (read_spot line (plain ty.now) (plain_spot spot) self.old) }
    {
        match ty {
            CType::Int(ty) => match spot {
                Spot::Local(register) => {
                    let to = self.take_integer()?;
                    self.emit(line, StmKind::Set(to, Atom::Reg(register)))?;
                    Ok(Atom::Reg(to))
                }
                Spot::Memory(address) => {
                    let to = self.take_integer()?;
                    self.emit(line, StmKind::Load(ty.kind(), to, address))?;
                    Ok(Atom::Reg(to))
                }
                Spot::Value(value) => Ok(value),
                Spot::Empty => Ok(Atom::Null),
            },
            CType::Pointer(_) => match spot {
                Spot::Local(register) => {
                    let to = self.take_pointer()?;
                    self.emit(line, StmKind::Set(to, Atom::Reg(register)))?;
                    Ok(Atom::Reg(to))
                }
                Spot::Memory(address) => {
                    let to = self.take_pointer()?;
                    self.emit(line, StmKind::Loadp(to, address))?;
                    Ok(Atom::Reg(to))
                }
                Spot::Value(value) => Ok(value),
                Spot::Empty => Ok(Atom::Null),
            },
            CType::Void
            | CType::Array(_, _)
            | CType::Struct(_)
            | CType::Union(_)
            | CType::Function(_) => Ok(spot.atom()),
        }
    }

    /// An expression that is elaborated, where it is evaluated (C99 6.3.2.1).
    #[tactic(auto, unfolding(elaboration::specs::Conversions::read_spot))]
    pub fn valued_from(&mut self, e: &Expr, found: Found) -> Result<Found, TypeError>
        ensures { Finds self.new result (valued_from (expr_view e.now) self.old (plain_found found)) }
    {
        let Found { typed, spot, fixed } = found;
        let is_place = typed.is_place;
        let is_array = is_array(&typed.ty);
        let typed = typed.read(line_of(e), self.tags())?;
        let value = if is_array {
            spot.atom()
        } else {
            self.read_spot(line_of(e), &typed.ty, spot)?
        };
        Ok(Found {
            typed,
            spot: Spot::Value(value),
            fixed: if is_place && !is_array {
                Fixed::Unknown
            } else {
                fixed
            },
        })
    }

    /// An expression that is elaborated, where a value is wanted: an assignment to a struct or a union has none.
    pub fn wanted_from(&mut self, e: &Expr, found: Found) -> Result<Found, TypeError>
        ensures { Finds self.new result (wanted_from (expr_view e.now) self.old (plain_found found)) }
    {
        if found.typed.has_no_value() {
            return refused(TypeKind::Operands, line_of(e));
        }
        self.valued_from(e, found)
    }

    /// An integer of one type converted to another: nothing happens where every number stays, and a number is converted at
    /// once (C99 6.3.1.3).
    pub fn convert_integer(
        &mut self,
        line: Line,
        ty: IntType,
        source: IntType,
        a: Atom,
    ) -> Result<Atom, NoMemory>
        ensures { Emits self.new result (convert_integer line ty source a self.old) }
    {
        match a {
            Atom::Int(number) => Ok(Atom::Int(ty.kind().wrap(number))),
            Atom::Reg(_) | Atom::Null | Atom::Static(_) | Atom::Mem(_) => {
                if holds_all(ty.kind(), source.kind()) {
                    return Ok(a);
                }
                let to = self.take_integer()?;
                self.emit(line, StmKind::Conv(ty.kind(), to, a))?;
                Ok(Atom::Reg(to))
            }
        }
    }

    /// A value of one type converted to another one, to which it converts; a null pointer constant where a pointer is
    /// wanted is null, and its code, which stands behind the mark, is forgotten (C99 6.3).
    pub fn convert(
        &mut self,
        line: Line,
        before: Mark,
        ty: &CType,
        source: &CType,
        a: Atom,
    ) -> Result<Atom, NoMemory>
        ensures { Emits self.new result (coerced line before (plain ty.now) (plain source.now) a self.old) }
    {
        match operand_of(ty) {
            Operand::Number(ty) => match operand_of(source) {
                Operand::Number(source) => self.convert_integer(line, ty, source, a),
                Operand::PointerTo(_) | Operand::Neither => Ok(a),
            },
            Operand::PointerTo(_) => match operand_of(source) {
                Operand::Number(_) => {
                    self.forget(before);
                    Ok(Atom::Null)
                }
                Operand::PointerTo(_) | Operand::Neither => Ok(a),
            },
            Operand::Neither => Ok(a),
        }
    }

    /// A value as an integer that is 0 or not.
    pub fn tested(&mut self, line: Line, ty: &CType, a: Atom) -> Result<Atom, NoMemory>
        ensures { Emits self.new result (tested line (plain ty.now) a self.old) }
    {
        match ty {
            CType::Pointer(_) => {
                let to = self.take_integer()?;
                self.emit(line, StmKind::Test(to, a))?;
                Ok(Atom::Reg(to))
            }
            CType::Void
            | CType::Int(_)
            | CType::Array(_, _)
            | CType::Struct(_)
            | CType::Union(_)
            | CType::Function(_) => Ok(a),
        }
    }

    /// Writes a value to a place of its type.
    pub fn write(&mut self, line: Line, ty: &CType, spot: Spot, a: Atom) -> Result<(), NoMemory>
        ensures { IfOk result (λ _. self.new ≡ write line (plain ty.now) (plain_spot spot) a self.old) }
    {
        match spot {
            Spot::Local(register) => self.emit(line, StmKind::Set(register, a)),
            Spot::Memory(address) => match ty {
                CType::Int(ty) => self.emit(line, StmKind::Store(ty.kind(), address, a)),
                CType::Pointer(_) => self.emit(line, StmKind::Storep(address, a)),
                CType::Void
                | CType::Array(_, _)
                | CType::Struct(_)
                | CType::Union(_)
                | CType::Function(_) => Ok(()),
            },
            Spot::Value(_) | Spot::Empty => Ok(()),
        }
    }

    /// The size of a type in bytes, or 0 where it has none.
    pub fn size_or_zero(&self, ty: &CType) -> Result<u32, NoMemory>
        ensures { IfOk result (λ size. size ≡ size_or_zero self.now (plain ty.now)) }
    {
        Ok(size_in(self.tags(), ty)?.unwrap_or(0))
    }
}
