//! The rules of the operators (C99 6.5): from operands whose types are known, the expression, or why it is refused.

ghost use Rattle.std.specs.Prelude.{◌≡◌, cond, Ok};
ghost use Rattle.c_types.specs.Types.{plain};
ghost use Rattle.c_decls.specs.Constants.{typed};
ghost use Rattle.c_decls.specs.Refusals.{Answers, Meets, refused as refusal};
ghost use Rattle.c_decls.specs.Typed.{plain_typed, value, int, operand, is_null_constant};
ghost use Rattle.c_decls.specs.TypeRules as rules;

use crate::constant::Constant;
use crate::integers::{common_type, promoted};
use crate::refusal::{TypeError, TypeKind};
use crate::typed::{
    Folded, Operand, Typed, has_no_size, is_same, is_scalar, is_void, operand_of, refused,
};
use c_tree::{BinaryOp, UnaryOp};
use c_types::{CType, IntType, Tags};
use hs_base::Line;
use std::alloc::Global;

/// The value of a calculation.
fn folded_of(calculated: Option<Constant>) -> Folded
    ensures { result ≡ rules.folded_of calculated }
{
    match calculated {
        Some(constant) => Folded::Is(constant.value),
        None => Folded::Traps,
    }
}

/// What is chosen by a constant: an operand that is not constant decides, whether it is evaluated or not (C99 6.6).
pub fn chosen(test: Folded, then_it: Folded, else_it: Folded) -> Folded
    ensures { result ≡ rules.chosen test then_it else_it }
{
    match (test, then_it, else_it) {
        (Folded::Varies, _, _) | (_, Folded::Varies, _) | (_, _, Folded::Varies) => Folded::Varies,
        (Folded::Traps, _, _) => Folded::Traps,
        (Folded::Is(n), _, _) => { if n == 0 { else_it } else { then_it } }
    }
}

/// 1 or 0 by a constant.
fn truth_of(folded: Folded) -> Folded
    ensures { result ≡ rules.truth_of folded }
{
    match folded {
        Folded::Is(n) => Folded::Is(if n == 0 { 0 } else { 1 }),
        other => other,
    }
}

/// The result of an operator other than `&&` and `||` on constants.
fn calculated(op: BinaryOp, x: Constant, y: Constant) -> Option<Constant>
    ensures { result ≡ rules.calculated op x y }
{
    match op {
        BinaryOp::BitOr => Some(x.or(y)),
        BinaryOp::BitXor => Some(x.xor(y)),
        BinaryOp::BitAnd => Some(x.and(y)),
        BinaryOp::Equal => Some(x.equal(y)),
        BinaryOp::NotEqual => Some(x.not_equal(y)),
        BinaryOp::Less => Some(x.less(y)),
        BinaryOp::Greater => Some(x.greater(y)),
        BinaryOp::LessEqual => Some(x.less_or_equal(y)),
        BinaryOp::GreaterEqual => Some(x.greater_or_equal(y)),
        BinaryOp::ShiftLeft => x.shift_left(y),
        BinaryOp::ShiftRight => x.shift_right(y),
        BinaryOp::Add => Some(x.add(y)),
        BinaryOp::Subtract => Some(x.sub(y)),
        BinaryOp::Multiply => Some(x.mul(y)),
        BinaryOp::Divide => x.divide(y),
        BinaryOp::Remainder => x.remainder(y),
        BinaryOp::Or | BinaryOp::And => None,
    }
}

/// The type of an operator's result on integers.
pub fn result_type(op: BinaryOp, s: IntType, t: IntType) -> IntType
    ensures { result ≡ rules.result_type op s t }
{
    match op {
        BinaryOp::BitOr
        | BinaryOp::BitXor
        | BinaryOp::BitAnd
        | BinaryOp::Add
        | BinaryOp::Subtract
        | BinaryOp::Multiply
        | BinaryOp::Divide
        | BinaryOp::Remainder => common_type(s, t),
        BinaryOp::ShiftLeft | BinaryOp::ShiftRight => promoted(s),
        BinaryOp::Or
        | BinaryOp::And
        | BinaryOp::Equal
        | BinaryOp::NotEqual
        | BinaryOp::Less
        | BinaryOp::Greater
        | BinaryOp::LessEqual
        | BinaryOp::GreaterEqual => IntType::Int,
    }
}

/// The value of an operator on two integers: an operand that is not constant decides before one that traps.
fn calculation(op: BinaryOp, s: IntType, t: IntType, first: Folded, second: Folded) -> Folded
    ensures { result ≡ rules.fold_two (λ m n. rules.folded_of (rules.calculated op (typed s m) (typed t n))) first second }
{
    match (first, second) {
        (Folded::Varies, _) | (_, Folded::Varies) => Folded::Varies,
        (Folded::Is(m), Folded::Is(n)) => {
            let x = Constant { ty: s, value: m };
            let y = Constant { ty: t, value: n };
            folded_of(calculated(op, x, y))
        }
        (Folded::Traps, _) | (_, Folded::Traps) => Folded::Traps,
    }
}

/// An operator on two integers.
fn on_integers(op: BinaryOp, s: IntType, t: IntType, first: Folded, second: Folded) -> Typed
    ensures { plain_typed result ≡ rules.on_integers op s t first second }
{
    Typed::integer(result_type(op, s, t), calculation(op, s, t, first, second))
}

/// Why a pointer to a type does not move: the type is void, or it has no size (C99 6.5.6).
pub fn immovable(tags: &Tags, target: &CType) -> Option<TypeKind>
    ensures { result ≡ rules.immovable tags.now (plain target.now) }
{
    if is_void(target) {
        Some(TypeKind::Operands)
    } else if has_no_size(tags, target) {
        Some(TypeKind::Incomplete)
    } else {
        None
    }
}

/// A value of a type, unless there is a reason against it.
pub fn value_unless(bar: Option<TypeKind>, line: Line, ty: CType) -> Result<Typed, TypeError>
    ensures { Answers plain_typed result (rules.barred bar line (Ok (value (plain ty)))) }
{
    match bar {
        Some(kind) => refused(kind, line),
        None => Ok(Typed::value(ty)),
    }
}

/// `+` (C99 6.5.6).
fn sum(line: Line, tags: &Tags, x: Typed, y: Typed) -> Result<Typed, TypeError>
    ensures { Answers plain_typed result
        (rules.sum_types line tags.now (plain_typed x) (plain_typed y) (operand (plain x.ty)) (operand (plain y.ty))) }
{
    match (operand_of(&x.ty), operand_of(&y.ty)) {
        (Operand::Number(s), Operand::Number(t)) => {
            Ok(on_integers(BinaryOp::Add, s, t, x.folded, y.folded))
        }
        (Operand::PointerTo(target), Operand::Number(_)) => {
            let bar = immovable(tags, target);
            value_unless(bar, line, x.ty)
        }
        (Operand::Number(_), Operand::PointerTo(target)) => {
            let bar = immovable(tags, target);
            value_unless(bar, line, y.ty)
        }
        (Operand::PointerTo(_), Operand::PointerTo(_))
        | (Operand::Neither, _)
        | (_, Operand::Neither) => refused(TypeKind::Operands, line),
    }
}

/// Binary `-` (C99 6.5.6).
fn difference(line: Line, tags: &Tags, x: Typed, y: Typed) -> Result<Typed, TypeError>
    ensures { Answers plain_typed result
        (rules.difference_types line tags.now (plain_typed x) (plain_typed y) (operand (plain x.ty)) (operand (plain y.ty))) }
{
    match (operand_of(&x.ty), operand_of(&y.ty)) {
        (Operand::Number(s), Operand::Number(t)) => {
            Ok(on_integers(BinaryOp::Subtract, s, t, x.folded, y.folded))
        }
        (Operand::PointerTo(target), Operand::Number(_)) => {
            let bar = immovable(tags, target);
            value_unless(bar, line, x.ty)
        }
        (Operand::PointerTo(target), Operand::PointerTo(other)) => {
            if is_same(target, other) {
                value_unless(immovable(tags, target), line, CType::Int(IntType::Int))
            } else {
                refused(TypeKind::Operands, line)
            }
        }
        (Operand::Number(_), Operand::PointerTo(_))
        | (Operand::Neither, _)
        | (_, Operand::Neither) => refused(TypeKind::Operands, line),
    }
}

/// `<`, `>`, `<=` and `>=` (C99 6.5.8).
fn order(op: BinaryOp, line: Line, x: &Typed, y: &Typed) -> Result<Typed, TypeError>
    ensures { Answers plain_typed result
        (rules.order_types op line (plain_typed x.now) (plain_typed y.now) (operand (plain x.now.ty)) (operand (plain y.now.ty))) }
{
    match (operand_of(&x.ty), operand_of(&y.ty)) {
        (Operand::Number(s), Operand::Number(t)) => Ok(on_integers(op, s, t, x.folded, y.folded)),
        (Operand::PointerTo(target), Operand::PointerTo(other)) => {
            int_if(is_same(target, other), TypeKind::Operands, line)
        }
        (Operand::PointerTo(_), Operand::Number(_)) => refused(beside_pointer(y), line),
        (Operand::Number(_), Operand::PointerTo(_)) => refused(beside_pointer(x), line),
        (Operand::Neither, _) | (_, Operand::Neither) => refused(TypeKind::Operands, line),
    }
}

/// A value of type `int`, or a refusal.
fn int_if(holds: bool, kind: TypeKind, line: Line) -> Result<Typed, TypeError>
    ensures { Answers plain_typed result (cond holds (Ok int) (refusal kind line)) }
{
    if holds {
        Ok(Typed::int())
    } else {
        refused(kind, line)
    }
}

/// Why an integer and a pointer are not ordered.
fn beside_pointer(e: &Typed) -> TypeKind
    ensures { result ≡ cond (is_null_constant (plain_typed e.now)) TypeKind.Operands TypeKind.PointerAndInteger }
{
    if e.is_null_constant() {
        TypeKind::Operands
    } else {
        TypeKind::PointerAndInteger
    }
}

/// `==` and `!=` (C99 6.5.9).
fn equality(op: BinaryOp, line: Line, x: &Typed, y: &Typed) -> Result<Typed, TypeError>
    ensures { Answers plain_typed result
        (rules.equal_types op line (plain_typed x.now) (plain_typed y.now) (operand (plain x.now.ty)) (operand (plain y.now.ty))) }
{
    match (operand_of(&x.ty), operand_of(&y.ty)) {
        (Operand::Number(s), Operand::Number(t)) => Ok(on_integers(op, s, t, x.folded, y.folded)),
        (Operand::PointerTo(target), Operand::PointerTo(other)) => {
            let may_be = is_same(target, other) || is_void(target) || is_void(other);
            int_if(may_be, TypeKind::Operands, line)
        }
        (Operand::PointerTo(_), Operand::Number(_)) => {
            int_if(y.is_null_constant(), TypeKind::PointerAndInteger, line)
        }
        (Operand::Number(_), Operand::PointerTo(_)) => {
            int_if(x.is_null_constant(), TypeKind::PointerAndInteger, line)
        }
        (Operand::Neither, _) | (_, Operand::Neither) => refused(TypeKind::Operands, line),
    }
}

/// The operators that take integers alone (C99 6.5.5, 6.5.7, 6.5.10 to 6.5.12).
fn integers(op: BinaryOp, line: Line, x: &Typed, y: &Typed) -> Result<Typed, TypeError>
    ensures { Answers plain_typed result
        (rules.integer_types op line (plain_typed x.now) (plain_typed y.now) (operand (plain x.now.ty)) (operand (plain y.now.ty))) }
{
    match (operand_of(&x.ty), operand_of(&y.ty)) {
        (Operand::Number(s), Operand::Number(t)) => Ok(on_integers(op, s, t, x.folded, y.folded)),
        (Operand::PointerTo(_) | Operand::Neither, _)
        | (_, Operand::PointerTo(_) | Operand::Neither) => refused(TypeKind::Operands, line),
    }
}

/// `&&` and `||` (C99 6.5.13, 6.5.14) of this value.
fn logical(line: Line, folded: Folded, x: &Typed, y: &Typed) -> Result<Typed, TypeError>
    ensures { Answers plain_typed result (rules.logical line folded (plain_typed x.now) (plain_typed y.now)) }
{
    if is_scalar(&x.ty) && is_scalar(&y.ty) {
        Ok(Typed::integer(IntType::Int, folded))
    } else {
        refused(TypeKind::Operands, line)
    }
}

/// An operator between two values (C99 6.5.5 to 6.5.14).
pub fn binary(line: Line, op: BinaryOp, tags: &Tags, x: Typed, y: Typed) -> Result<Typed, TypeError>
    ensures { Answers plain_typed result (rules.binary line op tags.now (plain_typed x) (plain_typed y)) }
{
    match op {
        BinaryOp::Or => {
            let folded = chosen(x.folded, Folded::Is(1), truth_of(y.folded));
            logical(line, folded, &x, &y)
        }
        BinaryOp::And => {
            let folded = chosen(x.folded, truth_of(y.folded), Folded::Is(0));
            logical(line, folded, &x, &y)
        }
        BinaryOp::Add => sum(line, tags, x, y),
        BinaryOp::Subtract => difference(line, tags, x, y),
        BinaryOp::Less | BinaryOp::Greater | BinaryOp::LessEqual | BinaryOp::GreaterEqual => {
            order(op, line, &x, &y)
        }
        BinaryOp::Equal | BinaryOp::NotEqual => equality(op, line, &x, &y),
        BinaryOp::BitOr
        | BinaryOp::BitXor
        | BinaryOp::BitAnd
        | BinaryOp::ShiftLeft
        | BinaryOp::ShiftRight
        | BinaryOp::Multiply
        | BinaryOp::Divide
        | BinaryOp::Remainder => integers(op, line, &x, &y),
    }
}

/// The number of unary `+`, `-`, `~` and `!` on a constant.
fn unary_number(op: UnaryOp, constant: Constant) -> i128
    ensures { result ≡ rules.unary_number op constant }
{
    match op {
        UnaryOp::Minus => constant.negate().value,
        UnaryOp::Complement => constant.complement().value,
        UnaryOp::Not => constant.negated_truth().value,
        UnaryOp::Plus | UnaryOp::Address | UnaryOp::Deref => constant.value,
    }
}

/// The type of unary `+`, `-`, `~` and `!` on an integer.
fn unary_type(op: UnaryOp, ty: IntType) -> IntType
    ensures { result ≡ rules.unary_type op ty }
{
    match op {
        UnaryOp::Not => IntType::Int,
        UnaryOp::Plus | UnaryOp::Minus | UnaryOp::Complement | UnaryOp::Address | UnaryOp::Deref =>
            promoted(ty),
    }
}

/// An operator before an integer (C99 6.5.3.3).
fn unary_on_integer(op: UnaryOp, ty: IntType, folded: Folded) -> Typed
    ensures { plain_typed result ≡ rules.unary_on_integer op ty folded }
{
    let value = match folded {
        Folded::Is(value) => Folded::Is(unary_number(op, Constant { ty, value })),
        Folded::Traps => Folded::Traps,
        Folded::Varies => Folded::Varies,
    };
    Typed::integer(unary_type(op, ty), value)
}

/// The place to which a pointer points (C99 6.5.3.2).
pub(crate) fn place_behind(line: Line, ty: CType) -> Result<Typed, TypeError>
    ensures { Answers plain_typed result (rules.place_behind line (operand (plain ty))) }
{
    match ty {
        CType::Pointer(target) => Ok(Typed::place(*target)),
        CType::Void
        | CType::Int(_)
        | CType::Array(_, _)
        | CType::Struct(_)
        | CType::Union(_)
        | CType::Function(_) => refused(TypeKind::Operands, line),
    }
}

/// An operator other than `&` before a value (C99 6.5.3).
pub fn unary(line: Line, op: UnaryOp, e: Typed) -> Result<Typed, TypeError>
    ensures { Answers plain_typed result (rules.unary_of line op (plain_typed e) (operand (plain e.ty))) }
{
    match operand_of(&e.ty) {
        Operand::Number(ty) => match op {
            UnaryOp::Deref => refused(TypeKind::Operands, line),
            UnaryOp::Address
            | UnaryOp::Plus
            | UnaryOp::Minus
            | UnaryOp::Complement
            | UnaryOp::Not => Ok(unary_on_integer(op, ty, e.folded)),
        },
        Operand::PointerTo(_) => match op {
            UnaryOp::Not => Ok(Typed::int()),
            UnaryOp::Deref => place_behind(line, e.ty),
            UnaryOp::Plus | UnaryOp::Minus | UnaryOp::Complement | UnaryOp::Address => {
                refused(TypeKind::Operands, line)
            }
        },
        Operand::Neither => refused(TypeKind::Operands, line),
    }
}

/// `&` of a place (C99 6.5.3.2).
pub fn address(alloc: Global, line: Line, e: Typed) -> Result<Typed, TypeError>
    ensures { Meets plain_typed result (rules.address line (plain_typed e)) }
{
    if e.is_place {
        let pointer = CType::pointer_to(alloc, e.ty)?;
        Ok(Typed::value(pointer))
    } else {
        refused(TypeKind::NotLvalue, line)
    }
}
