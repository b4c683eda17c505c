ghost use Rattle.std.specs.Prelude.{◌≡◌, ℕ, Bool, true, ◌||◌, [], ◌∷◌, ◌++◌, List, map, OnOk};
ghost use Rattle.std.specs.List.{list_any};
ghost use Rattle.std.specs.Str.{bytes_eq};

use std::alloc::Global;
use std::collections::HashSet;
use std::hash::Hash;
use std::marker::Model;
use zy_base::{Said, Want};

// Texts, each once. Contracts see them in any order.
#[derive(Drop)]
pub(crate) struct TextSet {
    texts: HashSet<Vec<u8>>,
}

impl Model for TextSet {
    ghost use Rattle.std.specs.Prelude.{ℕ, List, map};

    ghost Value = { List (List ℕ) };

    ghost view = { λ s. map (λ text. text.items) s.texts.keys };
}

impl TextSet {
    // No text. Takes no memory.
    pub(crate) fn new(alloc: Global) -> TextSet
        ensures { result ≡ [] }
    {
        TextSet {
            texts: HashSet::new(alloc),
        }
    }

    pub(crate) fn has(&self, text: &[u8]) -> bool
        ensures { result ≡ list_any (bytes_eq text.now) self.now }
    {
        self.texts.contains(text)
    }

    // A text more, which takes memory only where it is new.
    fn add(&mut self, text: Vec<u8>) -> Result<(), Want>
        ensures { OnOk result ((q : List ℕ) → list_any (bytes_eq q) self.new ≡ list_any (bytes_eq q) (self.old ++ text.items ∷ [])) }
    {
        put_key(&mut self.texts, text)?;
        Ok(())
    }

    pub(crate) fn add_all(&mut self, said: Said) -> Result<(), Want>
        ensures { OnOk result ((q : List ℕ) → list_any (bytes_eq q) self.new ≡ list_any (bytes_eq q) (self.old ++ map (λ spoken. spoken.text) said)) }
    {
        for spoken in said.into_vec() {
            self.add(spoken.text.into_vec())?;
        }
        Ok(())
    }
}

// The key is among the keys. What a test finds, that equal keys pass alike, is the key or what it found before.
fn put_key<K: Hash + Eq + Drop>(keys: &mut HashSet<K>, key: K) -> Result<(), Want>
    ensures { OnOk result ((test : K → Bool) → ((k : K) → K.eq key k ≡ true → test k ≡ test key) → list_any test keys.new.keys ≡ (test key || list_any test keys.old.keys)) }
{
    keys.insert(key)?;
    Ok(())
}
