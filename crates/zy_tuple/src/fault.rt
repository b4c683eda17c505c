//! Why a line or bytes could not be read.

ghost use Rattle.std.specs.Prelude.{◌≡◌};
ghost use Rattle.zy_tuple.specs.declared.fault.LineFault.TheVariants as line_faults;
ghost use Rattle.zy_tuple.specs.declared.fault.OpFault.TheVariants as op_faults;

use std::alloc::{AllocError, AllocFailed};
use zy_base::FrameFault;

/// Why a line could not be read: the rule of its first part that can't be read, or want of memory.
///
/// Rule 1 is the first word, 2 a missing part, a separator, a bracket or the start of a field, 3 a number of
/// fields that isn't 1 to 8, 4 a number, 5 a text field, 6 something after the end of the line's form,
/// 7 a wildcard in a tuple, 10 a reply's text.
#[derive(Clone, Copy, Debug, PartialEq, Eq)]
pub enum LineFault {
    Rule(u8),
    Want,
}

impl From<AllocError> for LineFault {
    ghost from_gives = { λ _ e. e ≡ line_faults.Want };

    fn from(_: AllocError) -> Self {
        LineFault::Want
    }
}

impl<T: Drop> From<AllocFailed<T>> for LineFault {
    ghost from_gives = { λ _ e. e ≡ line_faults.Want };

    fn from(_: AllocFailed<T>) -> Self {
        LineFault::Want
    }
}

impl From<zy_base::Want> for LineFault {
    ghost from_gives = { λ _ e. e ≡ line_faults.Want };

    fn from(_: zy_base::Want) -> Self {
        LineFault::Want
    }
}

/// Why bytes could not be read as an operation.
#[derive(Clone, Copy, Debug, PartialEq, Eq)]
pub enum OpFault {
    /// The bytes spell no operation.
    NotOp,
    Want,
}

impl From<AllocError> for OpFault {
    ghost from_gives = { λ _ e. e ≡ op_faults.Want };

    fn from(_: AllocError) -> Self {
        OpFault::Want
    }
}

impl<T: Drop> From<AllocFailed<T>> for OpFault {
    ghost from_gives = { λ _ e. e ≡ op_faults.Want };

    fn from(_: AllocFailed<T>) -> Self {
        OpFault::Want
    }
}

impl From<zy_base::Want> for OpFault {
    ghost from_gives = { λ _ e. e ≡ op_faults.Want };

    fn from(_: zy_base::Want) -> Self {
        OpFault::Want
    }
}

impl From<FrameFault> for OpFault {
    ghost from_gives = { λ _ e. e ≡ op_faults.NotOp };

    fn from(_: FrameFault) -> Self {
        OpFault::NotOp
    }
}

/// Why bytes could not be read as a reply.
#[derive(Clone, Copy, Debug, PartialEq, Eq)]
pub enum ReplyFault {
    /// The bytes spell no reply.
    NotReply,
    Want,
}
