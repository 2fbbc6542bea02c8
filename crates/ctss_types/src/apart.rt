//! Values that lie apart, which contracts see as the value.
ghost use Rattle.std.specs.Prelude.{◌≡◌, IfOk};

use faults::NoMemory;
use std::alloc::{AllocError, Global};
use std::marker::Model;

/// A value that lies apart, so that what it is a part of stays small. Contracts see the value.
#[derive(Debug, Drop)]
pub struct Apart<T> {
    place: Box<T>,
}

impl<T> Model for Apart<T> {
    ghost Value = { T };

    ghost view = { λ a. a.place.value };
}

impl<T> Apart<T> {
    /// The value, at a place of its own.
    pub fn new(alloc: Global, value: T) -> Result<Apart<T>, NoMemory>
    where
        T: Drop,
        ensures { IfOk result (λ apart. apart ≡ value) }
    {
        let place = Box::new(alloc, value)?;
        Ok(Apart { place })
    }

    /// The value.
    pub fn get(&self) -> &T
        ensures { result.now ≡ self.now }
    {
        &self.place
    }
}

impl<T: Clone> Clone for Apart<T> {
    ghost is_clone = { λ value copy. T.is_clone value copy };

    fn clone(&self) -> Result<Apart<T>, AllocError> {
        let place = self.place.clone()?;
        Ok(Apart { place })
    }
}

impl<T: PartialEq> PartialEq for Apart<T> {
    ghost eq = { T.eq };

    ghost laws = { T.laws };

    fn eq(&self, other: &Self) -> bool {
        self.place.eq(&other.place)
    }
}

impl<T: Eq> Eq for Apart<T> {
    ghost laws = { T.Eq.laws };
}
