//! What one party knows to verify: what its process keeps, and what it checked or signed itself since.

ghost use Rattle.std.specs.Prelude.{IsTrue};
ghost use Rattle.zy_lms.specs.Hss.{hss_verified};

use crate::store::{Checked, Store};
use std::alloc::Global;
use std::cell::RefCell;
use std::sync::{Arc, RwLock};

// A party keeps no more by itself, if nobody takes it in.
const MOST_FRESH: usize = 4096;

/// No clause sees what is known. While parties step at once they only read the store: what each of them checked is taken in afterwards.
pub(crate) struct Known {
    alloc: Global,
    store: Option<Arc<RwLock<Store>, Global>>,
    fresh: RefCell<Vec<Checked>>,
}

// A derived drop would be written out wherever a directory or a sealer is let go.
impl Drop for Known {
    fn drop(self) {
        let Known {
            alloc: _,
            store,
            fresh,
        } = self;
        drop((store, fresh));
    }
}

impl Known {
    /// Nothing, now and later. Takes no memory.
    pub(crate) fn nothing(alloc: Global) -> Known {
        Known::of(alloc, None)
    }

    /// Nothing yet, with a store of its own. Where there is no memory for it, nothing is known later either.
    pub(crate) fn open(alloc: Global) -> Known {
        Known::of(alloc, Arc::new(alloc, RwLock::new(Store::new(alloc))).ok())
    }

    /// What the process keeps.
    pub(crate) fn beside(&self) -> Known {
        match &self.store {
            Some(store) => Known::of(self.alloc, Arc::try_clone(store).ok()),
            None => Known::nothing(self.alloc),
        }
    }

    fn of(alloc: Global, store: Option<Arc<RwLock<Store>, Global>>) -> Known {
        Known {
            alloc,
            store,
            fresh: RefCell::new(Vec::new(alloc)),
        }
    }

    /// Whether the signature is known to verify.
    pub(crate) fn has(&self, key: &[u8; 60], text: &[u8], sig: &[u8]) -> bool
        ensures { IsTrue result → IsTrue (hss_verified key.now text.now sig.now) }
    {
        match &self.store {
            Some(store) => is_kept(store, key, text, sig) || is_fresh(&self.fresh, key, text, sig),
            None => false,
        }
    }

    /// Where there is no memory for it, it isn't known later.
    pub(crate) fn keep(&self, key: &[u8; 60], text: &[u8], sig: &[u8])
        requires { IsTrue (hss_verified key.now text.now sig.now) }
    {
        if self.store.is_none() {
            return;
        }
        if let Ok(mut fresh) = self.fresh.try_borrow_mut() {
            if fresh.len() < MOST_FRESH {
                if let Ok(checked) = Checked::new(self.alloc, key, text, sig) {
                    let _ = fresh.push(checked);
                }
            }
        }
    }

    /// Puts what this party checked and signed into the store, in that order.
    pub(crate) fn take_in(&self) {
        if let Some(store) = &self.store {
            if let Some(mut store) = store.try_write() {
                if let Ok(fresh) = self.fresh.try_replace(Vec::new(self.alloc)) {
                    take_all(&mut store, fresh);
                }
            }
        }
    }
}

fn is_kept(store: &RwLock<Store>, key: &[u8; 60], text: &[u8], sig: &[u8]) -> bool
    ensures { IsTrue result → IsTrue (hss_verified key.now text.now sig.now) }
{
    match store.try_read() {
        Some(store) => store.has(key, text, sig),
        None => false,
    }
}

fn is_fresh(fresh: &RefCell<Vec<Checked>>, key: &[u8; 60], text: &[u8], sig: &[u8]) -> bool
    ensures { IsTrue result → IsTrue (hss_verified key.now text.now sig.now) }
{
    match fresh.try_borrow() {
        Ok(fresh) => some_is(&fresh, key, text, sig),
        Err(_) => false,
    }
}

fn some_is(all: &[Checked], key: &[u8; 60], text: &[u8], sig: &[u8]) -> bool
    ensures { IsTrue result → IsTrue (hss_verified key.now text.now sig.now) }
{
    all.iter().any(|checked| checked.is_of(key, text, sig))
}

fn take_all(store: &mut Store, all: Vec<Checked>) {
    for checked in all {
        store.keep(checked);
    }
}
