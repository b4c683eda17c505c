use std::alloc::{AllocError, AllocFailed};

/// Want of memory. No contract ties it to a refused growth.
#[derive(Clone, Copy, Debug, PartialEq, Eq)]
pub struct Want;

impl From<AllocError> for Want {
    fn from(_: AllocError) -> Self {
        Want
    }
}

impl<T: Drop> From<AllocFailed<T>> for Want {
    fn from(_: AllocFailed<T>) -> Self {
        Want
    }
}
