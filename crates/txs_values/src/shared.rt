ghost use Rattle.std.specs.Prelude.{◌≡◌, IfOk};

use sqlite_items::Items;
use std::alloc::{AllocError, Global};
use std::marker::Model;
use std::sync::Arc;

/// A value with several owners, that contracts see as the value, so that one more owner equals the one before.
#[derive(Debug, Drop)]
pub struct Shared<T> {
    inner: Arc<T>,
}

impl<T> Model for Shared<T> {
    ghost Value = { T };

    ghost coded = { T.code };

    ghost view = { λ it. it.inner.value };
}

impl<T> Shared<T> {
    pub fn get(&self) -> &T
        ensures { result.now ≡ self.now }
    {
        &self.inner
    }

    /// One more owner of the same value.
    pub fn share(&self) -> Result<Shared<T>, AllocError>
        ensures { IfOk result (λ it. it ≡ self.now) }
    {
        Ok(Shared {
            inner: Arc::try_clone(&self.inner)?,
        })
    }
}

impl<T: Drop> Shared<T> {
    pub fn new(alloc: Global, value: T) -> Result<Shared<T>, AllocError>
        ensures { IfOk result (λ it. it ≡ value) }
    {
        Ok(Shared {
            inner: Arc::new(alloc, value)?,
        })
    }
}

/// Items with several owners, that contracts see as the list of them.
#[derive(Debug, Drop)]
pub struct SharedItems<T> {
    inner: Arc<Items<T>>,
}

impl<T> Model for SharedItems<T> {
    ghost use Rattle.std.specs.Prelude.{List};
    ghost use Rattle.std.specs.Coded.{coded_list};

    ghost Value = { List T };

    ghost coded = { coded_list T.code };

    ghost view = { λ it. it.inner.value };
}

impl<T> SharedItems<T> {
    pub fn as_slice(&self) -> &[T]
        ensures { result.now ≡ self.now }
    {
        self.inner.as_slice()
    }

    /// One more owner of the same items.
    pub fn share(&self) -> Result<SharedItems<T>, AllocError>
        ensures { IfOk result (λ it. it ≡ self.now) }
    {
        Ok(SharedItems {
            inner: Arc::try_clone(&self.inner)?,
        })
    }
}

impl<T: Drop> SharedItems<T> {
    pub fn new(alloc: Global, items: Items<T>) -> Result<SharedItems<T>, AllocError>
        ensures { IfOk result (λ it. it ≡ items) }
    {
        Ok(SharedItems {
            inner: Arc::new(alloc, items)?,
        })
    }
}
