ghost use Rattle.std.specs.Prelude.{◌≡◌, IfOk};
ghost use Rattle.std.specs.Borrow.{sem};

use crate::Memory;
use std::alloc::Global;
use std::marker::Model;

/// A value in memory of its own, which contracts see as the value.
/// A type may lead back to itself through it, and two such values are equal where what they hold is.
#[derive(Drop)]
pub struct Boxed<T> {
    inner: Box<T>,
}

impl<T> Model for Boxed<T> {
    ghost Value = { T };

    ghost coded = { T.code };

    ghost view = { λ boxed. boxed.inner.value };
}

impl<T> Boxed<T> {
    ghost use Rattle.rf_text.specs.Boxed.{lends_value};

    pub fn get(&self) -> &T
        ensures { result.now ≡ self.now }
    {
        &self.inner
    }

    /// The value, to be written.
    pub fn get_mut(&mut self) -> &mut T
        ensures* writes_back { sem 𝓛 (lends_value T.row self.entry result) }
        ensures value { result.now ≡ self.old }
    {
        &mut *self.inner
    }

    pub fn into_inner(self) -> T
        ensures { result ≡ self }
    {
        let Boxed { inner } = self;
        Box::into_inner(inner)
    }
}

impl<T: Drop> Boxed<T> {
    /// On an `Err` the value is let go.
    pub fn new(alloc: Global, value: T) -> Result<Boxed<T>, Memory>
        ensures { IfOk result (λ boxed. boxed ≡ value) }
    {
        let inner = Box::new(alloc, value)?;
        Ok(Boxed { inner })
    }
}
