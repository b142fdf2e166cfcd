//! The walk over expressions and the names of types (C99 6.5, 6.7.6): the parts from left to right, and the whole after
//! its parts.

ghost use Rattle.std.specs.Prelude.{◌≡◌, map, option_copied};
ghost use Rattle.c_types.specs.Types.{plain, plain_list};
ghost use Rattle.c_tree.specs.View.{expr_tree, declarator_tree, base_tree, suffix_tree};
ghost use Rattle.c_tree.specs.StatementView.{trees, expr_view, typename_view, suffix_view, param_view};
ghost use Rattle.c_tree.specs.Scopes.{name_of};
ghost use Rattle.c_decls.specs.Typed.{plain_typed};
ghost use Rattle.c_decls.specs.Expressions as rules;
ghost use Rattle.c_typing.specs.Callee.{plain_callee};
ghost use Rattle.c_typing.specs.Layers.{plain_layer, plain_layers};
ghost use Rattle.c_typing.specs.Walks.{Walks, context_of};
ghost use Rattle.c_typing.specs.Parts.{behind, is_plain, operand_of};

use crate::callees::{Callee, call, called, named, no_function};
use crate::layers::{Layer, adjusted, array_length, with_layers, with_param_layers};
use crate::literals::{char_constant, first_literal, int_constant, joined, string};
use crate::members::{arrow, dot};
use crate::places::{
    assigned, behind_comma, cast, changed, choice, element, held_place, layered_size, size, stepped,
};
use crate::typer::Typer;
use c_decls::{
    LayeredType, TypeError, TypeKind, Typed, address, binary, inner_line, is_function, is_void,
    line_of, refused, unary,
};
use c_tree::{
    AssignOp, Base, Declarator, Expr, ExprKind, Param, Suffix, SuffixKind, TypeName, UnaryOp,
};
use c_types::{CType, Tags};
use hs_base::{Items, Line};

/// Whether an operator is `=`.
fn is_plain(op: AssignOp) -> bool
    ensures { result ≡ is_plain op }
{
    matches!(op, AssignOp::Plain)
}

/// The name of a declarator, which may be left out.
#[cycle(name)]
#[tactic(auto, unfolding(c_tree::specs::View::declarator_tree, c_tree::specs::View::base_tree, c_tree::specs::Scopes::name_of, c_tree::specs::Scopes::name_among, c_tree::specs::Scopes::leads_to_name))]
pub fn declared_name(declarator: &Declarator) -> Option<&Items<u8>>
    ensures { option_copied result ≡ name_of (declarator_tree declarator.now) }
{
    match declarator {
        Declarator::Pointer(_, _, target) => declared_name(target),
        Declarator::Direct(base, _) => base_name(base),
    }
}

/// The name that suffixes stand behind, which may be left out.
#[cycle(name)]
#[tactic(auto, unfolding(c_tree::specs::View::declarator_tree, c_tree::specs::View::base_tree, c_tree::specs::Scopes::name_of, c_tree::specs::Scopes::name_among, c_tree::specs::Scopes::leads_to_name))]
fn base_name(base: &Base) -> Option<&Items<u8>>
    ensures { option_copied result ≡ name_of (base_tree base.now) }
{
    match base {
        Base::Nothing => None,
        Base::Name(name) => Some(name),
        Base::Parens(_, declarator) => declared_name(declarator),
    }
}

impl Typer<'_> {
    /// An expression: its type, and its value where it is constant.
    #[cycle(walk)]
    pub fn typed(&mut self, tags: &Tags, e: &Expr) -> Result<Typed, TypeError>
        ensures { Walks plain_typed (context_of self.new tags.now) result
            (rules.typed (expr_view e.now) (context_of self.old tags.now)) }
    {
        self.kind(tags, e.line, &e.kind)
    }

    /// What an expression at a line is.
    #[cycle(walk)]
    #[tactic(auto, unfolding(c_decls::specs::Expressions::typed, c_tree::specs::View::expr_tree))]
    fn kind(&mut self, tags: &Tags, line: Line, kind: &ExprKind) -> Result<Typed, TypeError>
        ensures { Walks plain_typed (context_of self.new tags.now) result
            (rules.typed (expr_tree kind.now line) (context_of self.old tags.now)) }
    {
        match kind {
            ExprKind::Name(name) => { named(self.alloc, line, self.scopes.find(name.as_slice())) }
            ExprKind::Int(bytes) => Ok(Typed::constant(int_constant(bytes.as_slice())?)),
            ExprKind::Char(bytes) => {
                let constant = char_constant(self.alloc, bytes.as_slice())?;
                Ok(Typed::constant(constant))
            }
            ExprKind::Str(parts) => {
                let bytes = joined(self.alloc, parts.as_slice())?;
                string(self.alloc, line, bytes.as_slice())
            }
            ExprKind::Paren(inner) => self.typed(tags, inner),
            ExprKind::Index(array, index) => {
                let x = self.wanted(tags, array)?;
                let y = self.wanted(tags, index)?;
                element(line, tags, x, y)
            }
            ExprKind::Call(callee, arguments) => {
                let function = self.callee(tags, callee.line, &callee.kind)?;
                let values = self.values(tags, arguments)?;
                let literal = first_literal(self.alloc, arguments)?;
                call(line, &literal, function, &values)
            }
            ExprKind::Dot(whole, name) => {
                let x = self.typed(tags, whole)?;
                dot(self.alloc, line, name.as_slice(), tags, &x)
            }
            ExprKind::Arrow(pointer, name) => {
                let x = self.wanted(tags, pointer)?;
                arrow(self.alloc, line, name.as_slice(), tags, &x)
            }
            ExprKind::PostInc(operand)
            | ExprKind::PostDec(operand)
            | ExprKind::PreInc(operand)
            | ExprKind::PreDec(operand) => {
                let x = self.changing(tags, operand)?;
                stepped(line, tags, x)
            }
            ExprKind::Unary(UnaryOp::Address, operand) => {
                let x = self.typed(tags, operand)?;
                address(self.alloc, line, x)
            }
            ExprKind::Unary(op, operand) => {
                let x = self.wanted(tags, operand)?;
                unary(line, *op, x)
            }
            ExprKind::SizeofExpr(operand) => {
                let x = self.typed(tags, operand)?;
                size(line, tags, &x.ty)
            }
            ExprKind::SizeofType(typename) => {
                let ty = self.typename(tags, typename)?;
                layered_size(line, tags, &ty)
            }
            ExprKind::Cast(typename, operand) => {
                let ty = self.typename(tags, typename)?.ty();
                let x = self.cast_operand(tags, is_void(&ty), operand)?;
                cast(line, ty, &x)
            }
            ExprKind::Binary(op, left, right) => {
                let x = self.wanted(tags, left)?;
                let y = self.wanted(tags, right)?;
                binary(line, *op, tags, x, y)
            }
            ExprKind::Cond(test, first, second) => {
                let test = self.wanted(tags, test)?;
                let x = self.wanted(tags, first)?;
                let y = self.wanted(tags, second)?;
                choice(line, &test, x, y)
            }
            ExprKind::Assign(op, left, right) => {
                if is_plain(*op) {
                    let x = self.typed(tags, left)?;
                    let y = self.typed(tags, right)?;
                    assigned(line, line_of(right), tags, x, y)
                } else {
                    let x = self.changing(tags, left)?;
                    let y = self.wanted(tags, right)?;
                    changed(line, *op, tags, x, &y)
                }
            }
            ExprKind::Comma(left, right) => {
                self.unused(tags, left)?;
                let y = self.unused(tags, right)?;
                Ok(behind_comma(y))
            }
        }
    }

    /// An operand whose value is wanted.
    #[cycle(walk)]
    pub fn wanted(&mut self, tags: &Tags, e: &Expr) -> Result<Typed, TypeError>
        ensures { Walks plain_typed (context_of self.new tags.now) result
            (rules.wanted (expr_view e.now) (rules.typed (expr_view e.now) (context_of self.old tags.now))) }
    {
        let x = self.typed(tags, e)?;
        x.wanted_value(line_of(e), tags)
    }

    /// An operand whose value is not used.
    #[cycle(walk)]
    fn unused(&mut self, tags: &Tags, e: &Expr) -> Result<Typed, TypeError>
        ensures { Walks plain_typed (context_of self.new tags.now) result
            (rules.unused (expr_view e.now) (rules.typed (expr_view e.now) (context_of self.old tags.now))) }
    {
        let x = self.typed(tags, e)?;
        x.read(line_of(e), tags)
    }

    /// The operand of a cast, to void or to a type of values; to void no value is used.
    #[cycle(walk)]
    fn cast_operand(&mut self, tags: &Tags, to_void: bool, e: &Expr) -> Result<Typed, TypeError>
        ensures { Walks plain_typed (context_of self.new tags.now) result
            (operand_of to_void (expr_view e.now) (rules.typed (expr_view e.now) (context_of self.old tags.now))) }
    {
        if to_void {
            self.unused(tags, e)
        } else {
            self.wanted(tags, e)
        }
    }

    /// An operand that is read and written: what it holds must be a value.
    #[cycle(walk)]
    fn changing(&mut self, tags: &Tags, e: &Expr) -> Result<Typed, TypeError>
        ensures { Walks plain_typed (context_of self.new tags.now) result
            (rules.changing (expr_view e.now) (rules.typed (expr_view e.now) (context_of self.old tags.now))) }
    {
        let x = self.typed(tags, e)?;
        held_place(line_of(e), tags, x)
    }

    /// What is called at a line: a name, or a value.
    #[cycle(walk)]
    #[tactic(auto, unfolding(c_tree::specs::View::expr_tree))]
    fn callee(&mut self, tags: &Tags, line: Line, kind: &ExprKind) -> Result<Callee, TypeError>
        ensures { Walks plain_callee (context_of self.new tags.now) result
            (rules.callee (expr_tree kind.now line) (context_of self.old tags.now)
            (rules.typed (expr_tree kind.now line) (context_of self.old tags.now))) }
    {
        match kind {
            ExprKind::Name(name) => {
                let found = self.scopes.find(name.as_slice());
                called(self.alloc, line, tags, found)
            }
            _ => {
                let x = self.kind(tags, line, kind)?;
                no_function(inner_line(kind, line), tags, x)
            }
        }
    }

    /// The values of arguments, in turn.
    #[cycle(walk)]
    fn values(&mut self, tags: &Tags, list: &[Expr]) -> Result<Vec<Typed>, TypeError>
        ensures { Walks (λ values. map plain_typed values.items) (context_of self.new tags.now) result
            (rules.values (trees expr_view list.now) (context_of self.old tags.now)) }
    {
        let mut values = Vec::new(self.alloc);
        for e in list {
            values.push(self.wanted(tags, e)?)?;
        }
        Ok(values)
    }

    /// The name of a type (C99 6.7.6).
    #[cycle(walk)]
    #[tactic(auto, unfolding(c_decls::specs::Expressions::typename))]
    pub fn typename(&mut self, tags: &Tags, typename: &TypeName) -> Result<LayeredType, TypeError>
        ensures { Walks (λ type. type) (context_of self.new tags.now) result
            (rules.typename (typename_view typename.now) (context_of self.old tags.now)) }
    {
        let base = self.specs_type(tags, &typename.specs)?;
        let layers = self.layers(tags, &typename.declarator)?;
        let ty = with_layers(self.alloc, tags, layers, base)?;
        if is_function(&ty.ty()) {
            return refused(TypeKind::LeftOut, typename.line);
        }
        Ok(ty)
    }

    /// The layers of a declarator, of which the last one stands next to the specs.
    #[cycle(walk)]
    #[tactic(auto, unfolding(c_decls::specs::Expressions::layers, c_tree::specs::View::declarator_tree), using(crate::specs::LayersEquations::layer_pushed))]
    pub fn layers(&mut self, tags: &Tags, declarator: &Declarator) -> Result<Vec<Layer>, TypeError>
        ensures { Walks (λ layers. plain_layers layers.items) (context_of self.new tags.now) result
            (rules.layers (declarator_tree declarator.now) (context_of self.old tags.now)) }
    {
        match declarator {
            Declarator::Pointer(line, _, target) => {
                let mut layers = self.layers(tags, target)?;
                layers.push(Layer::PointerTo(*line))?;
                Ok(layers)
            }
            Declarator::Direct(base, suffixes) => {
                let layers = self.base_layers(tags, base)?;
                self.suffix_layers(tags, suffixes, layers)
            }
        }
    }

    /// The layers of what suffixes stand behind.
    #[cycle(walk)]
    #[tactic(auto, unfolding(c_decls::specs::Expressions::layers, c_tree::specs::View::base_tree))]
    fn base_layers(&mut self, tags: &Tags, base: &Base) -> Result<Vec<Layer>, TypeError>
        ensures { Walks (λ layers. plain_layers layers.items) (context_of self.new tags.now) result
            (rules.layers (base_tree base.now) (context_of self.old tags.now)) }
    {
        match base {
            Base::Nothing | Base::Name(_) => Ok(Vec::new(self.alloc)),
            Base::Parens(_, declarator) => self.layers(tags, declarator),
        }
    }

    /// Layers with those of suffixes behind them, in turn.
    #[cycle(walk)]
    fn suffix_layers(
        &mut self,
        tags: &Tags,
        list: &[Suffix],
        before: Vec<Layer>,
    ) -> Result<Vec<Layer>, TypeError>
        ensures { Walks (λ layers. map plain_layer layers.items) (context_of self.new tags.now) result
            (behind (map plain_layer before.items) (rules.suffix_layers (trees suffix_view list.now) (context_of self.old tags.now))) }
    {
        let mut layers = before;
        for suffix in list {
            layers.push(self.suffix_layer(tags, suffix.line, &suffix.kind)?)?;
        }
        Ok(layers)
    }

    /// The layer of a suffix at a line.
    #[cycle(walk)]
    #[tactic(auto, unfolding(c_decls::specs::Expressions::suffix_layer, c_decls::specs::Expressions::line_of, c_tree::specs::View::suffix_tree, c_tree::specs::View::held_trees))]
    fn suffix_layer(
        &mut self,
        tags: &Tags,
        line: Line,
        kind: &SuffixKind,
    ) -> Result<Layer, TypeError>
        ensures { Walks plain_layer (context_of self.new tags.now) result
            (rules.suffix_layer (suffix_tree kind.now line) (context_of self.old tags.now)) }
    {
        match kind {
            SuffixKind::Array(length) => match length {
                None => Ok(Layer::ArrayOf(line, None)),
                Some(held) => {
                    let x = self.wanted(tags, held)?;
                    let length = array_length(line_of(held), &x)?;
                    Ok(Layer::ArrayOf(line, Some(length)))
                }
            },
            SuffixKind::Void => Ok(Layer::FunctionOf(line, Vec::new(self.alloc))),
            SuffixKind::Params(params) => {
                self.scopes.enter()?;
                let types = self.param_types(tags, params)?;
                self.scopes.leave()?;
                Ok(Layer::FunctionOf(line, types))
            }
        }
    }

    /// The types of parameters, each declared behind those before it.
    #[cycle(walk)]
    fn param_types(&mut self, tags: &Tags, list: &[Param]) -> Result<Vec<CType>, TypeError>
        ensures { Walks (λ types. plain_list types.items) (context_of self.new tags.now) result
            (rules.param_types (trees param_view list.now) (context_of self.old tags.now)) }
    {
        let mut types = Vec::new(self.alloc);
        for param in list {
            types.push(self.param_type(tags, param)?)?;
        }
        Ok(types)
    }

    /// The type of a parameter, which is declared (C99 6.7.5.3).
    #[cycle(walk)]
    #[tactic(auto, unfolding(c_decls::specs::Expressions::param_type))]
    fn param_type(&mut self, tags: &Tags, param: &Param) -> Result<CType, TypeError>
        ensures { Walks plain (context_of self.new tags.now) result
            (rules.param_type (param_view param.now) (context_of self.old tags.now)) }
    {
        let base = self.specs_type(tags, &param.specs)?;
        let layers = self.layers(tags, &param.declarator)?;
        let ty = with_param_layers(self.alloc, tags, layers, base)?;
        let name = declared_name(&param.declarator);
        self.declared_param(tags, param.line, name, adjusted(ty.ty()))
    }
}
