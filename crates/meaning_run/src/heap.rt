//! Heap objects are made, grown and freed (C99 7.20.3).

ghost use Rattle.std.specs.Prelude.{◌≡◌, ◌+◌, ◌*◌, ◌<◌, ◌^◌, ℕ, List, All, Some, IfOk, length, min, true};
ghost use Rattle.core_tree.specs.Sound.{element_layouts};
ghost use Rattle.hs_base.specs.Object.{object_at};
ghost use Rattle.hs_base.specs.Freeing.{freed_at};
ghost use Rattle.hs_base.specs.declared.values.Pointer.TheVariants as pointer;
ghost use Rattle.object_meaning.specs.objects.Values.{address, number_of, pointer_of, size_in, start_of};
ghost use Rattle.object_meaning.specs.objects.Going.{with_objects, write};
ghost use Rattle.object_meaning.specs.objects.Memory.{copied};
ghost use Rattle.object_meaning.specs.objects.Making.{with_new};
ghost use Rattle.meaning_state.specs.Refusing.{Changes};
ghost use Rattle.object_meaning.specs.objects.Heap.{birth_of, make, enqueue, free, free_named, grow, grow_named, grow_old};
ghost use Rattle.object_meaning.specs.objects.Meaning.{act};
ghost use Rattle.meaning_state.specs.Fitting.{Held, fits_in, held_after};
ghost use Rattle.meaning_state.specs.Making.{IsElement};
ghost use Rattle.meaning_run.specs.Leading.{AlonePlaced, IsHeap, with_input};
ghost use Rattle.meaning_run.specs.Steps.{PlacesBorn, Places, Acts, Grows, Makes, size_of};

use crate::halt::{Halt, halt_of};
use crate::machine::Machine;
use c_types::Layout;
use core_tree::{Atom, Core, StmKind};
use hs_base::{BadFree, Line, NoMemory, Pointer, Reason, Value};
use meaning_state::{HeldBlocks, Refusal, size_in};
use std::alloc::Global;

impl Machine {
    /// The number of an operand as a size.
    fn size_of(&self, a: Atom) -> u32
        ensures { result ≡ size_in (number_of self.now a) }
    {
        size_in(self.number(a))
    }

    /// What a free of a pointer that is not null names.
    fn freed(&self, birth: u64, offset: u32) -> Result<u64, Reason>
        ensures { result ≡ freed_at self.now.objects birth offset }
    {
        self.objects.freed_at(birth, offset)
    }

    /// The start of the object that is made next.
    fn next_start(&self) -> Pointer
        ensures { result ≡ start_of (length self.now.objects) }
    {
        Pointer::At {
            birth: self.objects.len() as u64,
            offset: 0,
        }
    }

    /// How many bytes both an object and a size have.
    fn common_size(&self, birth: u64, size: u32) -> u32
        ensures { result ≡ min (object_at self.now.objects birth).size size }
    {
        self.objects.size(birth).min(size)
    }

    /// A new heap object, which is the youngest.
    fn add_object(
        &mut self,
        alloc: Global,
        line: Line,
        size: u32,
        element: &Layout,
    ) -> Result<(), NoMemory>
        requires { IsElement element.now }
        ensures { IfOk result (λ _. self.new ≡ with_new line size element.now self.old) }
    {
        self.objects.add_heap(alloc, line, size, element)
    }

    /// Copies bytes from the start of one object to that of another.
    fn copy_object(&mut self, alloc: Global, d: Pointer, s: Pointer, n: u32) -> Result<(), Refusal>
        ensures copied { Changes result self.new.objects (copied self.old.objects d s n) }
        ensures rest { self.new ≡ with_objects self.old self.new.objects }
    {
        self.objects.copy(alloc, d, s, u128::from(n))
    }

    /// A register takes null.
    fn answer_null(&mut self, r: u32)
        requires { self.old.running.point + 1 < 2 ^ 64 }
        ensures { self.new ≡ write self.old (Some r) (address pointer.Null) }
    {
        self.write(Some(r), Value::Pointer(Pointer::Null));
    }

    /// A register takes the start of a new object where there is a place for it, and else null.
    fn make(
        &mut self,
        alloc: Global,
        held: &mut HeldBlocks,
        line: Line,
        r: u32,
        size: u64,
        element: &Layout,
    ) -> Result<(), Halt>
        requires point { self.old.running.point + 1 < 2 ^ 64 }
        requires element { IsElement element.now }
        ensures { Makes line r size element.now self.old self.new held.old held.new result }
    {
        let birth = self.objects.len() as u64;
        if !held.place(birth, size)? {
            self.answer_null(r);
            return Ok(());
        }
        self.objects.add_heap(alloc, line, size as u32, element)?;
        self.write(Some(r), Value::Pointer(Pointer::At { birth, offset: 0 }));
        Ok(())
    }

    /// An object is queued with the line of its free.
    fn enqueue(&mut self, line: Line, birth: u64) -> Result<(), NoMemory>
        ensures { IfOk result (λ _. self.new ≡ enqueue line birth self.old) }
    {
        self.queue.push(birth)?;
        self.objects.queue(birth, line);
        Ok(())
    }

    /// An object that may be freed is queued, and else the run stops.
    fn free_named(
        &mut self,
        alloc: Global,
        core: &Core,
        held: &mut HeldBlocks,
        line: Line,
        named: Result<u64, Reason>,
    ) -> Result<(), Halt>
        requires { self.old.running.point + 1 < 2 ^ 64 }
        ensures { Places (free_named core.now line named) self.old self.new held.old held.new result }
    {
        match named {
            Ok(birth) => {
                self.enqueue(line, birth)?;
                self.in_scope(alloc, core, held)
            }
            Err(reason) => Err(Halt::BadFree(BadFree { reason, line }, None)),
        }
    }

    /// A free. One of null does nothing.
    fn free(
        &mut self,
        alloc: Global,
        core: &Core,
        held: &mut HeldBlocks,
        line: Line,
        p: Pointer,
    ) -> Result<(), Halt>
        requires { self.old.running.point + 1 < 2 ^ 64 }
        ensures { Places (free core.now line p) self.old self.new held.old held.new result }
    {
        match p {
            Pointer::Null => {
                self.go_on();
                Ok(())
            }
            Pointer::At { birth, offset } => {
                let named = self.freed(birth, offset);
                self.free_named(alloc, core, held, line, named)
            }
        }
    }

    /// An object is copied to a new one, which has a place, as far as both go, and queued; a register takes the start of the
    /// new one.
    fn copy_old(
        &mut self,
        alloc: Global,
        core: &Core,
        held: &mut HeldBlocks,
        line: Line,
        r: u32,
        old: u64,
        size: u32,
        element: &Layout,
    ) -> Result<(), Halt>
        requires point { self.old.running.point + 1 < 2 ^ 64 }
        requires element { IsElement element.now }
        ensures { PlacesBorn (birth_of line size self.old) (grow_old true core.now line r old size element.now) self.old self.new held.old held.new result }
    {
        let new = self.next_start();
        let from = Pointer::At {
            birth: old,
            offset: 0,
        };
        let n = self.common_size(old, size);
        self.add_object(alloc, line, size, element)?;
        match self.copy_object(alloc, new, from, n) {
            Ok(()) => {}
            Err(refusal) => return Err(halt_of(line, refusal)),
        }
        self.enqueue(line, old)?;
        self.put(Some(r), Value::Pointer(new));
        self.in_scope(alloc, core, held)
    }

    /// An object is grown where there is a place for a new one, and else a register takes null.
    fn grow_old(
        &mut self,
        alloc: Global,
        core: &Core,
        held: &mut HeldBlocks,
        line: Line,
        r: u32,
        old: u64,
        size: u32,
        element: &Layout,
    ) -> Result<(), Halt>
        requires point { self.old.running.point + 1 < 2 ^ 64 }
        requires element { IsElement element.now }
        ensures { Places (grow_old (fits_in held.old size) core.now line r old size element.now) self.old self.new held.old held.new result }
    {
        let birth = self.objects.len() as u64;
        if !held.place(birth, u64::from(size))? {
            self.answer_null(r);
            return Ok(());
        }
        self.copy_old(alloc, core, held, line, r, old, size, element)
    }

    /// An object that may be freed is grown, and else the run stops.
    fn grow_from(
        &mut self,
        alloc: Global,
        core: &Core,
        held: &mut HeldBlocks,
        line: Line,
        r: u32,
        named: Result<u64, Reason>,
        size: u32,
        element: &Layout,
    ) -> Result<(), Halt>
        requires point { self.old.running.point + 1 < 2 ^ 64 }
        requires element { IsElement element.now }
        ensures { Places (grow_named core.now (fits_in held.old) line r named size element.now) self.old self.new held.old held.new result }
    {
        match named {
            Ok(old) => self.grow_old(alloc, core, held, line, r, old, size, element),
            Err(reason) => Err(Halt::BadFree(BadFree { reason, line }, None)),
        }
    }

    /// An object is grown. Growing null makes a new one.
    fn grow(
        &mut self,
        alloc: Global,
        core: &Core,
        held: &mut HeldBlocks,
        line: Line,
        r: u32,
        p: Pointer,
        size: u32,
        element: &Layout,
    ) -> Result<(), Halt>
        requires point { self.old.running.point + 1 < 2 ^ 64 }
        requires element { IsElement element.now }
        ensures { Grows core.now line r p size element.now self.old self.new held.old held.new result }
    {
        match p {
            Pointer::Null => self.make(alloc, held, line, r, u64::from(size), element),
            Pointer::At { birth, offset } => {
                let named = self.freed(birth, offset);
                self.grow_from(alloc, core, held, line, r, named, size, element)
            }
        }
    }

    /// Makes an object of a number of bytes.
    fn malloc(
        &mut self,
        alloc: Global,
        held: &mut HeldBlocks,
        line: Line,
        r: u32,
        n: Atom,
        element: &Layout,
    ) -> Result<(), Halt>
        requires point { self.old.running.point + 1 < 2 ^ 64 }
        requires element { IsElement element.now }
        ensures { Makes line r (size_of self.old n) element.now self.old self.new held.old held.new result }
    {
        let size = self.size_of(n);
        self.make(alloc, held, line, r, u64::from(size), element)
    }

    /// Makes an object of the product of two numbers of bytes.
    fn calloc(
        &mut self,
        alloc: Global,
        held: &mut HeldBlocks,
        line: Line,
        r: u32,
        m: Atom,
        n: Atom,
        element: &Layout,
    ) -> Result<(), Halt>
        requires point { self.old.running.point + 1 < 2 ^ 64 }
        requires element { IsElement element.now }
        ensures { Makes line r (size_of self.old m * size_of self.old n) element.now self.old self.new held.old held.new result }
    {
        let count = self.size_of(m);
        let size = self.size_of(n);
        self.make(
            alloc,
            held,
            line,
            r,
            u64::from(count) * u64::from(size),
            element,
        )
    }

    /// Grows an object to a number of bytes.
    fn realloc(
        &mut self,
        alloc: Global,
        core: &Core,
        held: &mut HeldBlocks,
        line: Line,
        r: u32,
        p: Atom,
        n: Atom,
        element: &Layout,
    ) -> Result<(), Halt>
        requires point { self.old.running.point + 1 < 2 ^ 64 }
        requires element { IsElement element.now }
        ensures { Grows core.now line r (pointer_of self.old p) (size_of self.old n) element.now self.old self.new held.old held.new result }
    {
        let p = self.pointer(p);
        let size = self.size_of(n);
        self.grow(alloc, core, held, line, r, p, size, element)
    }

    /// Frees what an operand points to.
    fn free_at(
        &mut self,
        alloc: Global,
        core: &Core,
        held: &mut HeldBlocks,
        line: Line,
        p: Atom,
    ) -> Result<(), Halt>
        requires { self.old.running.point + 1 < 2 ^ 64 }
        ensures { Places (free core.now line (pointer_of self.old p)) self.old self.new held.old held.new result }
    {
        let p = self.pointer(p);
        self.free(alloc, core, held, line, p)
    }

    /// A statement that works on the heap or on scopes.
    pub(crate) fn act_heap(
        &mut self,
        alloc: Global,
        core: &Core,
        held: &mut HeldBlocks,
        line: Line,
        kind: &StmKind,
    ) -> Result<(), Halt>
        requires point { self.old.running.point + 1 < 2 ^ 64 }
        requires heap { IsHeap kind.now }
        requires elements { All IsElement (element_layouts kind.now) }
        ensures { Acts core.now line kind.now self.old self.new held.old held.new result }
    {
        match kind {
            StmKind::Malloc(r, n, element) => self.malloc(alloc, held, line, *r, *n, element),
            StmKind::Calloc(r, m, n, element) => self.calloc(
                alloc, held, line, *r, *m, *n, element,
            ),
            StmKind::Realloc(r, p, n, element) => {
                self.realloc(alloc, core, held, line, *r, *p, *n, element)
            }
            StmKind::Free(p) => self.free_at(alloc, core, held, line, *p),
            StmKind::Enter => self.enter_scope(),
            StmKind::Leave => self.leave_scope(alloc, core, held),
            _ => unreachable!(),
        }
    }
}
