//! Expressions whose types are known.

ghost use Rattle.std.specs.Prelude.{◌≡◌, cond, Err};
ghost use Rattle.c_types.specs.Types.{plain};
ghost use Rattle.c_decls.specs.Refusals.{Answers};
ghost use Rattle.c_decls.specs.Typed.{plain_typed, place, value, integer, constant as constant_typed, int, held, is_zero, is_void, is_record, is_array, is_function, is_scalar, has_no_size, is_null_constant, operand, plain_operand, read, has_no_value, wanted_value, same};

use crate::constant::Constant;
use crate::refusal::{TypeError, TypeKind};
use c_types::{CType, IntType, Tags, align_of, same_type};
use hs_base::Line;

/// The value of an expression, as far as it is constant (C99 6.6).
#[derive(Clone, Copy, Debug, PartialEq, Eq)]
pub enum Folded {
    /// It is no integer constant expression.
    Varies,
    /// It is one whose evaluation traps.
    Traps,
    /// It is one of this value.
    Is(i128),
}

/// What is known of an expression (C99 6.3, 6.5).
#[derive(Drop)]
pub struct Typed {
    pub ty: CType,
    /// It names a place, which may be written where its type allows it.
    pub is_place: bool,
    pub folded: Folded,
    /// It is `NULL`, or an integer constant expression of value 0 that is cast to `void *`.
    pub is_null: bool,
}

/// A refusal at a line.
pub fn refused<T>(kind: TypeKind, line: Line) -> Result<T, TypeError>
    ensures { result ≡ Err (TypeError.Bad kind line) }
{
    Err(TypeError::Bad { kind, line })
}

impl Typed {
    /// A place of a type.
    pub fn place(ty: CType) -> Typed
        ensures { plain_typed result ≡ place (plain ty) }
    {
        Typed {
            ty,
            is_place: true,
            folded: Folded::Varies,
            is_null: false,
        }
    }

    /// A value of a type that is not constant.
    pub fn value(ty: CType) -> Typed
        ensures { plain_typed result ≡ value (plain ty) }
    {
        Typed {
            ty,
            is_place: false,
            folded: Folded::Varies,
            is_null: false,
        }
    }

    /// An integer, with its value where it is constant.
    pub fn integer(ty: IntType, folded: Folded) -> Typed
        ensures { plain_typed result ≡ integer ty folded }
    {
        Typed {
            ty: CType::Int(ty),
            is_place: false,
            folded,
            is_null: false,
        }
    }

    /// A constant.
    pub fn constant(constant: Constant) -> Typed
        ensures { plain_typed result ≡ constant_typed constant }
    {
        Typed::integer(constant.ty, Folded::Is(constant.value))
    }

    /// A value of type `int` that is not constant.
    pub fn int() -> Typed
        ensures { plain_typed result ≡ int }
    {
        Typed::value(CType::Int(IntType::Int))
    }

    /// Whether the expression is a null pointer constant (C99 6.3.2.3).
    pub fn is_null_constant(&self) -> bool
        ensures { result ≡ is_null_constant (plain_typed self.now) }
    {
        self.is_null || is_zero(&self.ty, self.folded)
    }

    /// The expression where it is evaluated: what a place holds, and for an array the address of its first element
    /// (C99 6.3.2.1).
    pub fn read(self, line: Line, tags: &Tags) -> Result<Typed, TypeError>
        ensures { Answers plain_typed result (read line tags.now (plain_typed self)) }
    {
        if self.is_place {
            held(line, tags, self.ty)
        } else {
            Ok(self)
        }
    }

    /// Whether the expression is an assignment to a struct or a union, which has no value.
    pub fn has_no_value(&self) -> bool
        ensures { result ≡ has_no_value (plain_typed self.now) }
    {
        is_record(&self.ty) && !self.is_place
    }

    /// The expression where a value is wanted.
    pub fn wanted_value(self, line: Line, tags: &Tags) -> Result<Typed, TypeError>
        ensures { Answers plain_typed result (wanted_value line tags.now (plain_typed self)) }
    {
        if self.has_no_value() {
            return refused(TypeKind::Operands, line);
        }
        self.read(line, tags)
    }
}

/// What a place of a type holds.
fn held(line: Line, tags: &Tags, ty: CType) -> Result<Typed, TypeError>
    ensures { Answers plain_typed result (held line tags.now (plain ty)) }
{
    match ty {
        CType::Void => refused(TypeKind::Incomplete, line),
        CType::Int(int) => Ok(Typed::value(CType::Int(int))),
        CType::Pointer(target) => Ok(Typed::value(CType::Pointer(target))),
        CType::Array(element, _) => Ok(Typed::value(CType::Pointer(element))),
        CType::Struct(tag) => refused(record_kind(tags, &CType::Struct(tag)), line),
        CType::Union(tag) => refused(record_kind(tags, &CType::Union(tag)), line),
        CType::Function(_) => refused(TypeKind::Operands, line),
    }
}

/// Why a struct or a union is no value.
fn record_kind(tags: &Tags, ty: &CType) -> TypeKind
    ensures { result ≡ cond (has_no_size tags.now (plain ty.now)) TypeKind.Incomplete TypeKind.Operands }
{
    if has_no_size(tags, ty) {
        TypeKind::Incomplete
    } else {
        TypeKind::Operands
    }
}

/// Whether no object can be of a type: it is incomplete, void or a function.
pub fn has_no_size(tags: &Tags, ty: &CType) -> bool
    ensures { result ≡ has_no_size tags.now (plain ty.now) }
{
    align_of(tags, ty).is_none()
}

/// Whether a type is void.
pub fn is_void(ty: &CType) -> bool
    ensures { result ≡ is_void (plain ty.now) }
{
    match ty {
        CType::Void => true,
        CType::Int(_)
        | CType::Pointer(_)
        | CType::Array(_, _)
        | CType::Struct(_)
        | CType::Union(_)
        | CType::Function(_) => false,
    }
}

/// Whether a type is a struct or a union.
pub fn is_record(ty: &CType) -> bool
    ensures { result ≡ is_record (plain ty.now) }
{
    match ty {
        CType::Struct(_) | CType::Union(_) => true,
        CType::Void | CType::Int(_) | CType::Pointer(_) | CType::Array(_, _) | CType::Function(_) =>
            false,
    }
}

/// Whether a type is an array.
pub fn is_array(ty: &CType) -> bool
    ensures { result ≡ is_array (plain ty.now) }
{
    match ty {
        CType::Array(_, _) => true,
        CType::Void
        | CType::Int(_)
        | CType::Pointer(_)
        | CType::Struct(_)
        | CType::Union(_)
        | CType::Function(_) => false,
    }
}

/// Whether a type is that of functions.
pub fn is_function(ty: &CType) -> bool
    ensures { result ≡ is_function (plain ty.now) }
{
    match ty {
        CType::Function(_) => true,
        CType::Void
        | CType::Int(_)
        | CType::Pointer(_)
        | CType::Array(_, _)
        | CType::Struct(_)
        | CType::Union(_) => false,
    }
}

/// Whether a type is an integer or a pointer (C99 6.2.5).
pub fn is_scalar(ty: &CType) -> bool
    ensures { result ≡ is_scalar (plain ty.now) }
{
    match ty {
        CType::Int(_) | CType::Pointer(_) => true,
        CType::Void
        | CType::Array(_, _)
        | CType::Struct(_)
        | CType::Union(_)
        | CType::Function(_) => false,
    }
}

/// Whether an integer of a type is the constant 0.
fn is_zero(ty: &CType, folded: Folded) -> bool
    ensures { result ≡ is_zero (plain ty.now) folded }
{
    matches!(ty, CType::Int(_)) && folded == Folded::Is(0)
}

/// How an operator sees the type of a value.
#[derive(Clone, Copy)]
pub enum Operand<'a> {
    Number(IntType),
    PointerTo(&'a CType),
    Neither,
}

/// How an operator sees a type.
pub fn operand_of(ty: &CType) -> Operand<'_>
    ensures { plain_operand result ≡ operand (plain ty.now) }
{
    match ty {
        CType::Int(int) => Operand::Number(*int),
        CType::Pointer(target) => Operand::PointerTo(target),
        CType::Void
        | CType::Array(_, _)
        | CType::Struct(_)
        | CType::Union(_)
        | CType::Function(_) => Operand::Neither,
    }
}

/// Whether two types are the same.
pub fn is_same(a: &CType, b: &CType) -> bool
    ensures { result ≡ same (plain a.now) (plain b.now) }
{
    same_type(a, b)
}
