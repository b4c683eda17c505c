//! What is copied, each by a function of its own.

ghost use Rattle.std.specs.Prelude.{◌≡◌, IfOk};

use std::alloc::Global;
use zy_base::{Items, Want};
use zy_parts::{Began, Change, New, Signed};
use zy_replica_state::bytes_copy;
use zy_vframes::ViewCert;

pub(crate) fn change_copy(change: &Change) -> Result<Change, Want>
    ensures { IfOk result (λ copy. copy ≡ change.now) }
{
    Ok(change.clone()?)
}

pub(crate) fn signed_change_copy(change: &Signed<Change>) -> Result<Signed<Change>, Want>
    ensures { IfOk result (λ copy. copy ≡ change.now) }
{
    Ok(change.clone()?)
}

fn change_copies(alloc: Global, changes: &[Signed<Change>]) -> Result<Items<Signed<Change>>, Want>
    ensures { IfOk result (λ copies. copies ≡ changes.now) }
{
    let mut copies = Items::new(alloc);
    for change in changes {
        copies.push(signed_change_copy(change)?)?;
    }
    Ok(copies)
}

pub(crate) fn new_copy(alloc: Global, new: &New) -> Result<New, Want>
    ensures { IfOk result (λ copy. copy ≡ new.now) }
{
    Ok(New {
        view: new.view,
        changes: change_copies(alloc, new.changes.as_slice())?,
    })
}

pub(crate) fn signed_new_copy(alloc: Global, new: &Signed<New>) -> Result<Signed<New>, Want>
    ensures { IfOk result (λ copy. copy ≡ new.now) }
{
    Ok(Signed {
        by: new.by,
        stmt: new_copy(alloc, &new.stmt)?,
        sig: bytes_copy(&new.sig)?,
    })
}

fn began_copies(begans: &Items<Signed<Began>>) -> Result<Items<Signed<Began>>, Want>
    ensures { IfOk result (λ copies. copies ≡ begans.now) }
{
    Ok(begans.clone()?)
}

pub(crate) fn cert_copy(alloc: Global, cert: &ViewCert) -> Result<ViewCert, Want>
    ensures { IfOk result (λ copy. copy ≡ cert.now) }
{
    Ok(ViewCert {
        new: signed_new_copy(alloc, &cert.new)?,
        begans: began_copies(&cert.begans)?,
    })
}
