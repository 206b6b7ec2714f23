// A block of memory with room for a fixed number of items, of which the first are there. All raw
// pointers of the crate are here.
ghost use Rattle.std.specs.Prelude.{◌≡◌, ◌+◌, ◌^◌, ◌<◌, ◌≤◌, List, [], ◌∷◌, ◌++◌, length, slice_set, slice_get, Some, IfOk};
ghost use Rattle.std.specs.Vec.Ownership.{FitsInBlock, vec_owns, vec_shares};

use std::alloc::Allocator;
use std::marker::Model;
use std::mem::{align_of, size_of};

// `ptr` leads to room for `cap` items, of which the first `len` are written.
pub(crate) struct Segment<T, A: Allocator> {
    ptr: *const T,
    len: usize,
    cap: usize,
    alloc: A,
    pub ghost items: { List T },
    ghost ok: { (len ≡ length items) × (len ≤ cap) },
    ghost small: { cap < 2 ^ 63 },
}

impl<T, A: Allocator> Model for Segment<T, A> {
    ghost also_owns = { λ s. vec_owns (A.dealloc_token s.alloc) T.row s.ptr s.len s.cap s.items };

    ghost also_shares = { λ s _ κ. vec_shares T.row s.ptr s.len s.cap s.items κ };
}

impl<T, A: Allocator> Segment<T, A> {
    // Room for `cap` items, or the handle back where there is no memory.
    pub(crate) fn allocate(alloc: A, cap: usize) -> Result<Segment<T, A>, A>
        requires { (0 < cap) × FitsInBlock T.row cap }
        ensures { IfOk result (λ s. (s.items ≡ []) × (s.len ≡ 0) × (s.cap ≡ cap)) }
    {
        match alloc.allocate(cap * size_of::<T>(), align_of::<T>()) {
            Ok(block) => Ok(Segment {
                ptr: block as *mut T,
                len: 0,
                cap,
                alloc,
            }),
            Err(_) => Err(alloc),
        }
    }

    // Writes `item` behind the last one.
    pub(crate) fn push(&mut self, item: T)
        requires { self.old.len < self.old.cap }
        ensures items { self.new.items ≡ self.old.items ++ item ∷ [] }
        ensures len { self.new.len ≡ self.old.len + 1 }
        ensures cap { self.new.cap ≡ self.old.cap }
        ensures in_place { self.new.ptr ≡ self.old.ptr }
    {
        let len = self.len;
        unsafe {
            self.ptr.cast_mut().add(len).write(item);
        }
        self.len = len + 1;
    }

    // Moves the last item out.
    pub(crate) fn pop(&mut self) -> T
        requires { 0 < self.old.len }
        ensures items { self.old.items ≡ self.new.items ++ result ∷ [] }
        ensures len { self.new.len + 1 ≡ self.old.len }
        ensures cap { self.new.cap ≡ self.old.cap }
        ensures in_place { self.new.ptr ≡ self.old.ptr }
    {
        self.len = self.len - 1;
        unsafe { self.ptr.add(self.len).read() }
    }

    // The items, oldest first.
    pub(crate) fn as_slice(&self) -> &[T]
        ensures value { result.now ≡ self.now.items }
        ensures len { length result.now ≡ self.now.len }
    {
        unsafe { std::slice::from_raw_parts(self.ptr, self.len) }
    }

    // Writes `item` over the one at `at`, which moves out.
    pub(crate) fn replace(&mut self, at: usize, item: T) -> T
        requires { at < self.old.len }
        ensures old { slice_get self.old.items at ≡ Some result }
        ensures items { self.new.items ≡ slice_set self.old.items at item }
        ensures len { self.new.len ≡ self.old.len }
        ensures cap { self.new.cap ≡ self.old.cap }
        ensures in_place { self.new.ptr ≡ self.old.ptr }
    {
        unsafe {
            let place = self.ptr.cast_mut().add(at);
            let before = place.read();
            place.write(item);
            before
        }
    }

    // Frees the block of an empty segment, and returns the handle.
    pub(crate) fn free(self) -> A
        requires { self.len ≡ 0 }
    {
        if self.cap != 0 {
            unsafe {
                self.alloc.deallocate(
                    self.ptr as *mut u8,
                    self.cap * size_of::<T>(),
                    align_of::<T>(),
                );
            }
        }
        let Segment {
            ptr: _,
            len: _,
            cap: _,
            alloc,
        } = self;
        alloc
    }
}

impl<T: Drop, A: Allocator> Segment<T, A> {
    // Drops the items, newest first.
    fn clear(&mut self)
        ensures { self.new.len ≡ 0 }
    {
        while !self.as_slice().is_empty() {
            let _item = self.pop();
        }
    }
}

// Drops the items, newest first, and frees the block.
impl<T: Drop, A: Allocator> Drop for Segment<T, A> {
    fn drop(mut self) {
        self.clear();
        let _alloc = self.free();
    }
}
