//! Trees of the code with how deep they are.

ghost use Rattle.std.specs.Prelude.{◌≡◌, is_some, length};
ghost use Rattle.c_tree.specs.Depth.{depth as depth_of, layers as layers_of, below, layers_all, greatest_depth, greatest_below};
ghost use Rattle.c_tree.specs.Forms as form;
ghost use Rattle.c_tree.specs.Scopes.{name_of, params_of, suffix_params};
ghost use Rattle.c_tree.specs.Tree.{Node, none, ◌▹◌};
ghost use Rattle.c_tree.specs.View.{spec_tree, declarator_tree, base_tree, enumerator_tree};
ghost use Rattle.c_tree.specs.StatementView.{trees, maybe, expr_view, typename_view, specs_view, tag_view, member_view, suffix_view, param_view};
ghost use Rattle.parser_parts.specs.Names.{name_now};
ghost use Rattle.grammar_reading.specs.Declarators.{is_leaf};
ghost use Rattle.parser_parts.specs.Held.{maybe_trees};

use c_tree::{
    Base, Declarator, Enumerator, Expr, Member, Param, Spec, Specs, Suffix, Tag, TypeName,
};

/// An expression.
#[derive(Drop)]
pub struct DeepExpr {
    pub tree: Expr,
    pub depth: usize,
    ghost exact: { depth ≡ depth_of (expr_view tree) },
}

/// Expressions of a list.
#[derive(Drop)]
pub struct DeepExprs {
    pub list: Vec<Expr>,
    pub depth: usize,
    ghost exact: { depth ≡ greatest_depth (trees expr_view list.items) },
}

/// An expression that may be left out.
#[derive(Drop)]
pub struct DeepMaybeExpr {
    pub tree: Option<Expr>,
    pub depth: usize,
    ghost exact: { depth ≡ greatest_depth (maybe_trees expr_view tree) },
}

/// The name of a type.
#[derive(Drop)]
pub struct DeepTypename {
    pub tree: TypeName,
    pub depth: usize,
    ghost exact: { depth ≡ depth_of (typename_view tree) },
}

/// Specs.
#[derive(Drop)]
pub struct DeepSpecs {
    pub tree: Specs,
    pub depth: usize,
    ghost exact: { depth ≡ depth_of (specs_view tree) },
}

/// Words of specs.
#[derive(Drop)]
pub struct DeepWords {
    pub list: Vec<Spec>,
    pub depth: usize,
    ghost exact: { depth ≡ greatest_depth (trees spec_tree list.items) },
}

/// A tag.
#[derive(Drop)]
pub struct DeepTag {
    pub tree: Tag,
    pub depth: usize,
    ghost exact: { depth ≡ depth_of (tag_view tree) },
}

/// A declaration of members.
#[derive(Drop)]
pub struct DeepMember {
    pub tree: Member,
    pub depth: usize,
    ghost exact: { depth ≡ depth_of (member_view tree) },
}

/// Declarations of members.
#[derive(Drop)]
pub struct DeepMembers {
    pub list: Vec<Member>,
    pub depth: usize,
    ghost exact: { depth ≡ greatest_depth (trees member_view list.items) },
}

/// An enumerator.
#[derive(Drop)]
pub struct DeepEnumerator {
    pub tree: Enumerator,
    pub depth: usize,
    ghost exact: { depth ≡ depth_of (enumerator_tree tree) },
}

/// Enumerators.
#[derive(Drop)]
pub struct DeepEnumerators {
    pub list: Vec<Enumerator>,
    pub depth: usize,
    ghost exact: { depth ≡ greatest_depth (trees enumerator_tree list.items) },
}

/// A parameter.
#[derive(Drop)]
pub struct DeepParam {
    pub tree: Param,
    pub depth: usize,
    ghost exact: { depth ≡ depth_of (param_view tree) },
}

/// Parameters.
#[derive(Drop)]
pub struct DeepParams {
    pub list: Vec<Param>,
    pub depth: usize,
    ghost exact: { depth ≡ greatest_depth (trees param_view list.items) },
}

/// The names of members.
#[derive(Drop)]
pub struct DeepDeclarators {
    pub list: Vec<Declarator>,
    pub depth: usize,
    ghost exact: { depth ≡ greatest_depth (trees declarator_tree list.items) },
}

/// A declarator: its layers, how deep it is without them, its name, and whether the layer next to the name is a parameter
/// list.
#[derive(Drop)]
pub struct DeepDeclarator<'a> {
    pub tree: Declarator,
    pub layers: usize,
    pub inside: usize,
    pub name: Option<&'a [u8]>,
    pub is_function: bool,
    ghost layered: { layers ≡ layers_of (declarator_tree tree) },
    ghost deep: { inside ≡ below (declarator_tree tree) },
    ghost named: { name_now name ≡ name_of (declarator_tree tree) },
    ghost function: { is_function ≡ is_some (params_of (declarator_tree tree)) },
}

/// What suffixes stand behind.
#[derive(Drop)]
pub struct DeepBase<'a> {
    pub tree: Base,
    pub layers: usize,
    pub inside: usize,
    pub name: Option<&'a [u8]>,
    pub is_function: bool,
    pub is_name: bool,
    ghost layered: { layers ≡ layers_of (base_tree tree) },
    ghost deep: { inside ≡ below (base_tree tree) },
    ghost named: { name_now name ≡ name_of (base_tree tree) },
    ghost function: { is_function ≡ is_some (params_of (base_tree tree)) },
    ghost leaf: { is_name ≡ is_leaf (base_tree tree) },
}

/// A suffix, which is one layer.
#[derive(Drop)]
pub struct DeepSuffix {
    pub tree: Suffix,
    pub inside: usize,
    pub is_function: bool,
    ghost layered: { layers_of (suffix_view tree) ≡ 1 },
    ghost deep: { inside ≡ below (suffix_view tree) },
    ghost function: { is_function ≡ is_some (suffix_params (Node form.Suffixes (suffix_view tree ▹ none) ▹ none)) },
}

/// Suffixes.
#[derive(Drop)]
pub struct DeepSuffixes {
    pub list: Vec<Suffix>,
    pub layers: usize,
    pub inside: usize,
    pub is_function: bool,
    ghost layered: { layers ≡ layers_all (trees suffix_view list.items) },
    ghost deep: { inside ≡ greatest_below (trees suffix_view list.items) },
    ghost function: { is_function ≡ is_some (suffix_params (Node form.Suffixes (trees suffix_view list.items) ▹ none)) },
}
