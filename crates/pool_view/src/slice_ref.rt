ghost use Rattle.std.specs.Prelude.{◌≡◌, IfOk};

use api_slice::ResourceSlice;
use dra_values::Shared;
use std::alloc::AllocError;
use std::marker::Model;

/// A slice of an inventory, borrowed, which contracts see as the slice.
#[derive(Drop)]
pub struct SliceRef<'a> {
    slice: &'a Shared<ResourceSlice>,
}

impl<'a> Model for SliceRef<'a> {
    ghost use Rattle.api_slice.specs.declared.types.ResourceSlice.{ResourceSlice};

    ghost Value = { ResourceSlice };

    ghost view = { λ s. s.slice.now };
}

impl<'a> SliceRef<'a> {
    /// A slice, borrowed.
    pub fn of(slice: &'a Shared<ResourceSlice>) -> SliceRef<'a>
        ensures { result ≡ slice.now }
    {
        SliceRef { slice }
    }

    /// The slice itself.
    pub fn get(&self) -> &'a ResourceSlice
        ensures { result.now ≡ self.now }
    {
        self.slice.value()
    }

    /// One more owner of the slice. Allocates nothing; `AllocError` only if the count of owners is full.
    pub fn share(&self) -> Result<Shared<ResourceSlice>, AllocError>
        ensures { IfOk result (λ slice. slice ≡ self.now) }
    {
        self.slice.share()
    }

    /// The same slice, borrowed again.
    pub fn again(&self) -> SliceRef<'a>
        ensures { result ≡ self.now }
    {
        SliceRef { slice: self.slice }
    }
}
