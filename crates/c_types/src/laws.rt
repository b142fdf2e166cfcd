//! Laws of layouts, each the contract of a function that does nothing.

ghost use Rattle.std.specs.Prelude.{◌≡◌, List, Some};
ghost use Rattle.c_types.specs.declared.layouts.Layout.{Layout};
ghost use Rattle.c_types.specs.Layouts.{IsSound, layout_of};
ghost use Rattle.c_types.specs.TagTable.{CompletedTag, known};
ghost use Rattle.c_types.specs.Types.{PlainType};

/// A layout that a type has over completed tags is sound: its alignment divides its size, and its slots are words inside it.
pub fn layouts_are_sound()
    ensures { (tags : List CompletedTag) (t : PlainType) (l : Layout) → layout_of (known tags) t ≡ Some l → IsSound l }
{}
