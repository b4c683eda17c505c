ghost use Rattle.std.specs.Prelude.{◌≡◌, ◌<◌, count_by, slice_index_or, slice_set, option_copied, None, Some, IfOk, List, ℕ};
ghost use Rattle.zy_parts.specs.Statements.{IsAskInRange};
ghost use Rattle.zy_parts.specs.Signing.{IsSignedInRange};
ghost use Rattle.zy_table.specs.ClientRows.{response_cause, is_own_order_if, is_repeated, kept_of, keep as keep_row, agrees, agreeing, done_of, completed_if, keep_unless, respond as respond_row};
ghost use Rattle.zy_cert.specs.Equal.{same_spec};
ghost use Rattle.zy_client.specs.Ready.{IsKeepable};

use crate::Client;
use crate::moved::Moved;
use zy_base::{Cause, ReplicaId, Want};
use zy_chain::{answers_digest, request_digest};
use zy_parts::{Ask, Order, Signed, Spec};
use zy_table::{Done, Path, Response};

impl Client {
    // A response of the replica with this number.
    #[tactic(auto, unfolding(zy_table::specs::ClientRows::respond))]
    pub(crate) fn responds(self, id: ReplicaId, response: Response) -> Result<Moved, Want>
        requires { IsKeepable response }
        ensures { IfOk result (λ m. m ≡ respond_row self id.0 response) }
    {
        let cause = match &self.waiting {
            None => Some(Cause::Finished),
            Some(waiting) => self.cause_against(waiting, id, &response),
        };
        match cause {
            Some(cause) => Ok(self.refused(cause)),
            None => self.keep(id, response),
        }
    }

    // Why a response to the waiting request isn't kept.
    fn cause_against(
        &self,
        waiting: &Signed<Ask>,
        id: ReplicaId,
        response: &Response,
    ) -> Option<Cause>
        requires { IsSignedInRange IsAskInRange waiting.now }
        ensures { result ≡ response_cause self.now waiting.now id.0 response.now }
    {
        let spec = &response.spec.stmt;
        if spec.client != self.me {
            return Some(Cause::Unmatched);
        }
        if spec.stamp < waiting.stmt.stamp {
            return Some(Cause::OldStamp);
        }
        if spec.stamp > waiting.stmt.stamp {
            return Some(Cause::Unmatched);
        }
        if answers_digest(&response.reply) != spec.reply {
            return Some(Cause::Unmatched);
        }
        if !self.is_own_order_if(waiting, spec, &response.order) {
            return Some(Cause::Unmatched);
        }
        if self.has_one_of(id, spec) {
            Some(Cause::Repeat)
        } else {
            None
        }
    }

    // The response of a replica that is kept.
    fn kept(&self, id: ReplicaId) -> Option<&Response>
        ensures { option_copied result ≡ kept_of self.now id.0 }
    {
        match self.responses.get(id.0 as usize) {
            Some(Some(response)) => Some(response),
            _ => None,
        }
    }

    // Where there is an order, it is that of the response, and for the own request.
    fn is_own_order_if(
        &self,
        waiting: &Signed<Ask>,
        spec: &Spec,
        order: &Option<Signed<Order>>,
    ) -> bool
        requires { IsSignedInRange IsAskInRange waiting.now }
        ensures { result ≡ is_own_order_if self.now waiting.now spec.now order.now }
    {
        match order {
            None => true,
            Some(order) => {
                let order = &order.stmt;
                order.view == spec.view
                    && order.place == spec.place
                    && order.head == spec.head
                    && order.request
                        == request_digest(self.me, waiting.stmt.stamp, waiting.stmt.op.as_slice())
            }
        }
    }

    // A response of this view or a greater one is kept already.
    fn has_one_of(&self, id: ReplicaId, spec: &Spec) -> bool
        ensures { result ≡ is_repeated (kept_of self.now id.0) spec.now }
    {
        match self.kept(id) {
            None => false,
            Some(kept) => spec.view <= kept.spec.stmt.view,
        }
    }

    // The response is kept in place of the replica's earlier one, what it proves of its primary is told, and with enough
    // equal ones the request is complete.
    fn keep(mut self, id: ReplicaId, response: Response) -> Result<Moved, Want>
        requires { IsKeepable response }
        ensures { IfOk result (λ m. m ≡ keep_unless None self id.0 response) }
    {
        self.vacate(id);
        let evidence = self.evidence_by(&response.order)?;
        self.fill(id, response)?.tells(evidence)
    }

    // The response of a replica is dropped.
    fn vacate(&mut self, id: ReplicaId)
        ensures { self.new ≡ record self.old { responses = slice_set self.old.responses id.0 None } }
    {
        if (id.0 as usize) < self.responses.len() {
            self.responses[id.0 as usize] = None;
        }
    }

    // The response is kept, and with enough equal ones the request is complete.
    fn fill(mut self, id: ReplicaId, response: Response) -> Result<Client, Want>
        requires { IsKeepable response }
        ensures { IfOk result (λ c. c ≡ completed_if (keep_row self id.0 response) response) }
    {
        let done = done_of(&response)?;
        let spec = response.spec.stmt;
        self.put(id, response);
        if agreeing(&self.responses, &spec) >= self.counts.fast {
            Ok(self.complete(done))
        } else {
            Ok(self)
        }
    }

    fn put(&mut self, id: ReplicaId, response: Response)
        requires { IsKeepable response }
        ensures { self.new ≡ keep_row self.old id.0 response }
    {
        if (id.0 as usize) < self.responses.len() {
            self.responses[id.0 as usize] = Some(response);
        }
    }

    fn complete(mut self, done: Done) -> Client
        ensures { result ≡ record self { known_view = done.view; waiting = None; done = Some done } }
    {
        self.known_view = done.view;
        self.waiting = None;
        self.done = Some(done);
        self
    }
}

// The completion that a response brings, where enough are equal to it.
fn done_of(response: &Response) -> Result<Done, Want>
    ensures { IfOk result (λ done. done ≡ done_of response.now) }
{
    let spec = &response.spec.stmt;
    Ok(Done {
        stamp: spec.stamp,
        view: spec.view,
        place: spec.place,
        head: spec.head,
        path: Path::Fast,
        reply: response.reply.clone()?,
    })
}

// How many of the kept responses are equal to one.
pub(crate) fn agreeing(responses: &[Option<Response>], spec: &Spec) -> u64
    ensures { result ≡ count_by (agrees spec.now) responses.now }
{
    responses
        .iter()
        .filter(|slot| agrees_with(slot, spec))
        .count() as u64
}

fn agrees_with(slot: &Option<Response>, spec: &Spec) -> bool
    ensures { result ≡ agrees spec.now slot.now }
{
    match slot {
        None => false,
        Some(kept) => kept.spec.stmt == *spec,
    }
}
