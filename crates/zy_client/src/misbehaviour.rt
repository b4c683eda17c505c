ghost use Rattle.std.specs.Prelude.{◌≡◌, [], ◌∷◌, ◌++◌, option_copied, option_to_list, IfOk};
ghost use Rattle.std.specs.List.{find};
ghost use Rattle.std.specs.Option.{ForSome};
ghost use Rattle.zy_cert.specs.Misbehaviour.{conflict};
ghost use Rattle.zy_table.specs.ClientRows.{order_in, contradicted as contradicted_row, is_blamed as is_blamed_row, evidence_with as evidence_with_row, evidence_by as evidence_by_row, told};
ghost use Rattle.zy_client.specs.Ready.{IsEvidence};

use crate::Client;
use crate::moved::Moved;
use zy_base::{View, Want};
use zy_cert::pom;
use zy_frames::Frame;
use zy_parts::{Order, Signed};
use zy_table::{Response, To};

// A primary that contradicts itself.
impl Client {
    // All replicas are told of the primary, if there is a proof.
    pub(crate) fn tells(
        self,
        evidence: Option<(Signed<Order>, Signed<Order>)>,
    ) -> Result<Moved, Want>
        requires { ForSome evidence IsEvidence }
        ensures { IfOk result (λ m. m ≡ told evidence self) }
    {
        match evidence {
            None => Ok(self.taken()),
            Some((kept, order)) => {
                let client = self.blames(order.stmt.view)?;
                let said = Vec::new(client.alloc);
                client.sends(To::All, Frame::Pom(kept, order), said)
            }
        }
    }

    // All are told of the primary of this view now.
    fn blames(mut self, view: View) -> Result<Client, Want>
        ensures { IfOk result (λ c. c ≡ record self { blamed = self.blamed ++ view ∷ [] }) }
    {
        self.blamed.push(view)?;
        Ok(self)
    }

    // A kept order and one that it contradicts, where not all were told of their view.
    pub(crate) fn evidence_by(
        &self,
        order: &Option<Signed<Order>>,
    ) -> Result<Option<(Signed<Order>, Signed<Order>)>, Want>
        ensures { IfOk result (λ e. e ≡ evidence_by_row self.now order.now) }
    {
        match order {
            None => Ok(None),
            Some(order) => self.evidence_with(order),
        }
    }

    fn evidence_with(
        &self,
        order: &Signed<Order>,
    ) -> Result<Option<(Signed<Order>, Signed<Order>)>, Want>
        ensures { IfOk result (λ e. e ≡ evidence_with_row self.now order.now (contradicted_row self.now order.now)) }
    {
        match self.contradicted(order) {
            None => Ok(None),
            Some(_) if self.is_blamed(order.stmt.view) => Ok(None),
            Some(kept) => Ok(Some((order_copy(kept)?, order_copy(order)?))),
        }
    }

    // The first kept order that contradicts one, by replica number.
    fn contradicted(&self, order: &Signed<Order>) -> Option<&Signed<Order>>
        ensures { option_copied result ≡ contradicted_row self.now order.now }
    {
        for slot in &self.responses {
            if let Some(kept) = contradiction_in(slot, order) {
                return Some(kept);
            }
        }
        None
    }

    // All were told that the primary of the view misbehaved.
    fn is_blamed(&self, view: View) -> bool
        ensures { result ≡ is_blamed_row self.now view }
    {
        self.blamed.as_slice().iter().any(|told| *told == view)
    }
}

// The order beside a kept response, where it contradicts one.
fn contradiction_in<'a>(
    slot: &'a Option<Response>,
    order: &Signed<Order>,
) -> Option<&'a Signed<Order>>
    ensures { option_copied result ≡ find (λ kept. conflict kept order.now) (option_to_list (order_in slot.now)) }
{
    match slot {
        Some(
            Response {
                order: Some(kept),
                ..
            },
        ) if contradicts(kept, order) => Some(kept),
        _ => None,
    }
}

fn contradicts(kept: &Signed<Order>, order: &Signed<Order>) -> bool
    ensures { result ≡ conflict kept.now order.now }
{
    pom(kept, order).is_ok()
}

fn order_copy(order: &Signed<Order>) -> Result<Signed<Order>, Want>
    ensures { IfOk result (λ copy. copy ≡ order.now) }
{
    Ok(Signed {
        by: order.by,
        stmt: order.stmt,
        sig: order.sig.clone()?,
    })
}
