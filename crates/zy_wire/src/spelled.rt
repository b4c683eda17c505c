ghost use Rattle.std.specs.Prelude.{◌≡◌, ℕ, ◌++◌, OnOk, IfOk};
ghost use Rattle.zy_wire.specs.Spelling.{Spelling, IsExact};
ghost use Rattle.zy_wire.specs.Getting.{Gets};

use crate::{Cut, GetFault, Put};
use std::alloc::Global;
use zy_base::Want;

/// A value with one spelling as bytes.
pub trait Spelled: Drop {
    // How it is spelled.
    ghost spelling: { Spelling Self };

    // What it may hold, beside what its types say.
    ghost in_range: { Self → Type 0 };

    /// Writes its bytes at the end. After `Want` some of them may stand there.
    fn put(&self, out: &mut Put) -> Result<(), Want>
        requires { in_range self.now }
        ensures { OnOk result (spelling.Fits self.now × (out.new ≡ out.old ++ spelling.spell self.now)) };

    /// Reads a value at the front. A refusal leaves all the bytes.
    fn get(alloc: Global, cut: &mut Cut<'_>) -> Result<Self, GetFault>
        ensures read { Gets spelling cut.old result cut.new }
        ensures in_range { IfOk result in_range };

    // What is read was spelled so, and what is spelled is read again.
    ghost exact: { IsExact spelling };

    ghost fits_in_range: { (x : Self) → spelling.Fits x → in_range x };
}
