ghost use Rattle.std.specs.Prelude.{◌≡◌, ◌++◌, ◌∷◌, [], OnOk, OnErr, ℕ, List, IsTrue, length, nat_eq};
ghost use Rattle.std.specs.List.{list_any};

use std::alloc::Global;
use std::marker::Model;
use zy_base::Want;

/// Numbers of replicas or of clients, each once.
#[derive(Debug, Drop)]
pub struct Numbers {
    numbers: Vec<u8>,
}

impl Model for Numbers {
    ghost use Rattle.std.specs.Prelude.{ℕ, List};

    ghost Value = { List ℕ };

    ghost view = { λ n. n.numbers.items };
}

impl Numbers {
    /// No numbers. Takes no memory.
    pub fn new(alloc: Global) -> Numbers
        ensures { result ≡ [] }
    {
        Numbers {
            numbers: Vec::new(alloc),
        }
    }

    pub fn as_slice(&self) -> &[u8]
        ensures { result.now ≡ self.now }
    {
        &self.numbers
    }

    pub(crate) fn contains(&self, number: u8) -> bool
        ensures { result ≡ list_any (λ other. nat_eq other number) self.now }
    {
        self.numbers.contains(&number)
    }

    pub(crate) fn push(&mut self, number: u8) -> Result<(), Want>
        ensures { OnOk result (self.new ≡ self.old ++ number ∷ []) }
    {
        self.numbers.push(number)?;
        Ok(())
    }
}
