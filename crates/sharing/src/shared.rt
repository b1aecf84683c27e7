//! A shared value.

ghost use Rattle.std.specs.Prelude.{◌≡◌, IfOk, IfSome};

use cxx_base::Memory;
use std::alloc::Global;
use std::marker::Model;
use std::sync::Arc;

/// A value on the heap that all copies share, in any threads. Contracts see the value, and no copy from another.
pub struct Shared<T> {
    inner: Arc<T, Global>,
}

impl<T> Model for Shared<T> {
    ghost Value = { T };

    ghost coded = { T.code };

    ghost view = { λ s. s.inner.value };
}

impl<T: Drop> Drop for Shared<T> {
    fn drop(self) {
        let Shared { inner: _ } = self;
    }
}

impl<T: Drop> Shared<T> {
    /// Moves a value to the heap. Without memory the value is dropped.
    pub fn new(alloc: Global, value: T) -> Result<Shared<T>, Memory>
        ensures { IfOk result (λ shared. shared ≡ value) }
    {
        let inner = Arc::new(alloc, value)?;
        Ok(Shared { inner })
    }
}

impl<T> Shared<T> {
    /// The value.
    pub fn get(&self) -> &T
        ensures { result.now ≡ self.now }
    {
        &self.inner
    }

    /// The same value. It costs a count.
    pub fn copy(&self) -> Result<Shared<T>, Memory>
        ensures { IfOk result (λ copy. copy ≡ self.now) }
    {
        let inner = Arc::try_clone(&self.inner)?;
        Ok(Shared { inner })
    }

    /// The value, if nobody shares it, and else None.
    pub fn into_inner(self) -> Option<T>
        ensures { IfSome result (λ value. value ≡ self) }
    {
        let Shared { inner } = self;
        Arc::into_inner(inner)
    }
}
