//! What frees and returns do to objects. The rules are this language's own; C99 7.20.3.2 leaves a pointer to a freed
//! object indeterminate.

ghost use Rattle.std.specs.Prelude.{◌≡◌, ◌+◌, ◌<◌, ◌^◌, ◌&&◌, not, IfOk, length};
ghost use Rattle.std.specs.List.{range_with_len};
ghost use Rattle.hs_base.specs.Object as spec;
ghost use Rattle.hs_base.specs.Object.{object_at, is_dead, is_queued};
ghost use Rattle.hs_base.specs.Access.{with_object};
ghost use Rattle.hs_base.specs.Freeing.{is_heap, freed_at, queued, line_of_free, buried, buried_standing, ended};

use crate::object::{Object, Sort, Standing};
use crate::objects::Objects;
use hs_base::{Line, Reason};

impl Object {
    /// Says whether a free may name it: it is a heap object that is not dead.
    fn is_freeable(&self) -> bool
        ensures { result ≡ (is_heap self.now.sort && not (is_dead self.now.standing)) }
    {
        matches!(self.sort, Sort::Heap(_)) && !self.is_dead()
    }

    /// Says whether it was freed and is not dead yet.
    fn is_queued(&self) -> bool
        ensures { result ≡ is_queued self.now.standing }
    {
        matches!(self.standing, Standing::Queued(_))
    }

    /// The line at which it was freed, and 0 where it was not.
    fn line_of_free(&self) -> Line
        ensures { result ≡ line_of_free self.now.standing }
    {
        match self.standing {
            Standing::Queued(line) => line,
            Standing::Live | Standing::Dead => 0,
        }
    }

    /// It is queued, by a free at that line.
    fn queue(&mut self, line: Line)
        ensures { self.new ≡ record self.old { standing = spec.Queued line } }
    {
        self.standing = Standing::Queued(line);
    }

    /// It dies.
    fn end(&mut self)
        ensures { self.new ≡ record self.old { standing = spec.Dead } }
    {
        self.standing = Standing::Dead;
    }

    /// It dies if it is queued.
    fn bury(&mut self)
        ensures { self.new ≡ record self.old { standing = buried_standing self.old.standing } }
    {
        if let Standing::Queued(_) = self.standing {
            self.standing = Standing::Dead;
        }
    }
}

impl Objects {
    /// What a free of a pointer that is not null names: the birth of a heap object at whose start it is.
    pub fn freed_at(&self, birth: u64, offset: u32) -> Result<u64, Reason>
        ensures freed { result ≡ freed_at self.now birth offset }
        ensures same { IfOk result (λ freed. freed ≡ birth) }
    {
        let at = birth as usize;
        if at >= self.list.len() {
            return Err(Reason::NotStart);
        }
        let object = &self.list[at];
        if !object.is_freeable() || offset != 0 {
            return Err(Reason::NotStart);
        }
        if object.is_queued() {
            return Err(Reason::Again);
        }
        Ok(birth)
    }

    /// The line at which an object was freed, and 0 where it was not.
    pub fn line_of_free(&self, birth: u64) -> Line
        ensures { result ≡ line_of_free (object_at self.now birth).standing }
    {
        let at = birth as usize;
        if at < self.list.len() {
            let object = &self.list[at];
            object.line_of_free()
        } else {
            0
        }
    }

    /// Queues an object, by a free at that line.
    pub fn queue(&mut self, birth: u64, line: Line)
        ensures { self.new ≡ queued self.old birth line }
    {
        let at = birth as usize;
        if at < self.list.len() {
            let object = &mut self.list[at];
            object.queue(line);
        }
    }

    /// All queued objects die.
    pub fn bury(&mut self)
        ensures { self.new ≡ buried self.old }
    {
        for i in 0..self.list.len() {
            let object = &mut self.list[i];
            object.bury();
        }
    }

    /// An object dies.
    fn end_one(&mut self, birth: usize)
        ensures { self.new ≡ with_object self.old birth (record (object_at self.old birth) { standing = spec.Dead }) }
    {
        if birth < self.list.len() {
            let object = &mut self.list[birth];
            object.end();
        }
    }

    /// So many objects die, from a birth on.
    pub fn end(&mut self, first: usize, count: usize)
        requires { first + count < 2 ^ 64 }
        ensures { self.new ≡ ended self.old (range_with_len first count) }
    {
        for k in 0..count {
            self.end_one(first + k);
        }
    }
}
