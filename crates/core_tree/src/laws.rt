//! Laws of the definitions.

ghost use Rattle.std.specs.Prelude.{ℕ, List, IsTrue, ◌↔◌, ◌≤◌};
ghost use Rattle.c_types.specs.declared.layouts.Layout.{Layout};
ghost use Rattle.c_types.specs.Layouts.{IsSound};
ghost use Rattle.core_tree.specs.declared.statements.Stm.{Stm};
ghost use Rattle.core_tree.specs.LayoutsOfTypes.{IsLayoutOfType};
ghost use Rattle.core_tree.specs.Lives.{IsLive, is_live};

use c_types::layouts_are_sound;

/// The bounded test says exactly whether a register is live after a point, which is said by paths.
pub fn live_by_paths()
    ensures { (body : List Stm) (point r : ℕ) → IsTrue (is_live body point r) ↔ IsLive body point r }
{}

/// A layout that a type has is sound, and has at most 268,435,456 bytes: so it is with each layout of a sound core.
pub fn layouts_of_types()
    ensures sound { (l : Layout) → IsLayoutOfType l → IsSound l }
    ensures small { (l : Layout) → IsLayoutOfType l → l.size ≤ 268435456 }
{
    layouts_are_sound();
}
