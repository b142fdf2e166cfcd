//! The marks of new objects.

ghost use Rattle.std.specs.Prelude.{All, IfSome};
ghost use Rattle.flat_objects.specs.Memory.{IsForm, IsMarkable};
ghost use Rattle.flat_objects.specs.Adding.{HasMarksOf, MarksOnly};

use adjusters::Adjuster;
use byte_marks::Marks;
use hs_base::Items;

/// Marks an object where it was placed, if it was: by the slots of the elements that the number of a layout names, if it names
/// any.
pub(crate) fn mark(
    marks: &mut Marks,
    forms: &Items<Adjuster>,
    placed: Option<u32>,
    size: u64,
    layout: u32,
)
    requires forms { All IsForm forms.now }
    requires inside { IfSome placed (IsMarkable marks.old size) }
    ensures changes { MarksOnly marks.old marks.new placed size }
    ensures marked { HasMarksOf forms.now layout marks.new placed size }
{
    let Some(addr) = placed else {
        return;
    };
    let Some(form) = forms.get(layout as usize) else {
        return;
    };
    marks.mark(addr, size as u32, form);
}
