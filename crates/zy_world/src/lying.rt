//! What liars and forgers sign, and bytes that are sent as they are.

ghost use Rattle.std.specs.Prelude.{◌≡◌, ◌-◌, ◌&&◌, true, length, Some, None, IfOk, IfSome};
ghost use Rattle.std.specs.Option.{option_and_then};
ghost use Rattle.std.specs.List.{AllByRecursion};
ghost use Rattle.zy_parts.specs.Signing.{IsSignedInRange};
ghost use Rattle.zy_parts.specs.Statements.{IsAskInRange};
ghost use Rattle.zy_world.specs.Answered.{GoesTo};
ghost use Rattle.zy_world.specs.Event.{IsHistoryTold};
ghost use Rattle.zy_world.specs.Shows.{Shows};
ghost use Rattle.zy_world_setup.specs.Telling.{IsEncoded, IsTellable, telling_of};
ghost use Rattle.zy_table.specs.Sending.{copies};
ghost use Rattle.zy_world.specs.Tale.{IsTale, can_forge, can_lie, if_replica, told_by};
ghost use Rattle.zy_world_law.specs.Events.{lie, forge, raw};
ghost use Rattle.zy_world_law.specs.Events.Happened.{Goes};
ghost use Rattle.zy_world_law.specs.Setup.{sealer_of};
ghost use Rattle.zy_world_law.specs.declared.note.Note.TheVariants.{Quiet};
ghost use Rattle.zy_world_law.specs.Liars.{by_replica, if_short, order_told, spec_told, requests_at, statement_told};
ghost use Rattle.zy_world_law.specs.World.{World as Whole, are_parties, is_correct, is_liar, with_sent};
ghost use Rattle.zy_seal.specs.Sealing.{signatures_by};
ghost use Rattle.zy_chain.specs.Answers.{FitsAnswers};

use crate::World;
use crate::going::Noted;
use crate::tale::Tale;
use zy_base::{Bytes, Cause, Items, Machine, Party, View, Want};
use zy_parts::{Ask, Signed};
use zy_seal::{SealFault, signature_count};
use zy_world_law::Note;
use zy_world_setup::{Tellable, read_statement, sealer_at};

impl<M: Machine> World<M> {
    /// A liar orders the requests of these frames as one history.
    pub(crate) fn lie_order(
        self,
        liar: Party,
        view: View,
        asks: &Items<u64>,
        to: &Items<Party>,
    ) -> Result<Noted<M>, Want>
        requires { IsHistoryTold view asks.now }
        ensures { (g : Whole M.State) → Shows g self → IfOk result (λ r. GoesTo (lie g liar to.now (by_replica liar (option_and_then (order_told view) (requests_at g asks.now)))) r.note r.world) }
    {
        match self.requests_of(liar, asks)? {
            Some(asks) => self.lie(liar, to, Tale::Order { view, asks }),
            None => Ok(self.no_subject()),
        }
    }

    /// A liar likewise signs a speculative response.
    pub(crate) fn lie_spec(
        self,
        liar: Party,
        view: View,
        asks: &Items<u64>,
        to: &Items<Party>,
        reply: Bytes,
    ) -> Result<Noted<M>, Want>
        requires history { IsHistoryTold view asks.now }
        requires reply { FitsAnswers reply }
        ensures { (g : Whole M.State) → Shows g self → IfOk result (λ r. GoesTo (lie g liar to.now (by_replica liar (option_and_then (spec_told view reply) (requests_at g asks.now)))) r.note r.world) }
    {
        match self.requests_of(liar, asks)? {
            Some(asks) => self.lie(liar, to, Tale::Spec { view, asks, reply }),
            None => Ok(self.no_subject()),
        }
    }

    /// A liar signs a statement by its number and fields.
    pub(crate) fn lie_statement(
        self,
        liar: Party,
        bytes: &Bytes,
        to: &Items<Party>,
    ) -> Result<Noted<M>, Want>
        ensures { (g : Whole M.State) → Shows g self → IfOk result (λ r. GoesTo (lie g liar to.now (if_short g.setup liar (statement_told bytes.now))) r.note r.world) }
    {
        match read_statement(self.alloc, bytes.as_slice())? {
            Some(statement) => self.lie(liar, to, Tale::Statement(statement)),
            None => Ok(self.no_subject()),
        }
    }

    /// Whoever made a correct party's key anew signs a statement with its last signature.
    pub(crate) fn forge_statement(
        self,
        party: Party,
        bytes: &Bytes,
        to: &Items<Party>,
    ) -> Result<Noted<M>, Want>
        ensures { (g : Whole M.State) → Shows g self → IfOk result (λ r. GoesTo (forge g party to.now (if_short g.setup party (statement_told bytes.now))) r.note r.world) }
    {
        match read_statement(self.alloc, bytes.as_slice())? {
            Some(statement) => self.forge(party, to, statement),
            None => Ok(self.no_subject()),
        }
    }

    /// Bytes are sent as they are.
    pub(crate) fn raw(self, bytes: &Bytes, to: &Items<Party>) -> Result<Noted<M>, Want>
        ensures { (g : Whole M.State) → Shows g self → IfOk result (λ r. GoesTo (raw g bytes.now to.now) r.note r.world) }
    {
        if self.are_parties(to) {
            self.sends(bytes, to)
        } else {
            Ok(self.no_subject())
        }
    }

    // The requests of these frames. Only a replica may sign what is said of them.
    fn requests_of(
        &self,
        liar: Party,
        asks: &Items<u64>,
    ) -> Result<Option<Items<Signed<Ask>>>, Want>
        ensures value { (g : Whole M.State) → Shows g self.now → IfOk result (λ found. found ≡ if_replica liar (requests_at g asks.now)) }
        ensures long { IfOk result (λ found. IfSome found (λ a. length a ≡ length asks.now)) }
        ensures range { IfOk result (λ found. IfSome found (AllByRecursion (IsSignedInRange IsAskInRange))) }
    {
        match liar {
            Party::Replica(_) => self.bag.requests(self.alloc, asks),
            Party::Client(_) => Ok(None),
        }
    }

    // A liar signs with its next signature.
    fn lie(self, liar: Party, to: &Items<Party>, tale: Tale) -> Result<Noted<M>, Want>
        requires { IsTale tale }
        ensures { (g : Whole M.State) → Shows g self → IfOk result (λ r. GoesTo (lie g liar to.now (told_by g.setup liar tale)) r.note r.world) }
    {
        if self.can_lie(liar, to) {
            self.lies(liar, to, tale)
        } else {
            Ok(self.no_subject())
        }
    }

    fn can_lie(&self, liar: Party, to: &Items<Party>) -> bool
        ensures { result ≡ can_lie self.now.seats liar to.now }
    {
        self.seats.is_liar(liar) && self.seats.are_seated(to.as_slice())
    }

    // Signs, and sends the frame, unless it is longer than a frame may be.
    fn lies(mut self, liar: Party, to: &Items<Party>, tale: Tale) -> Result<Noted<M>, Want>
        requires { IsTale tale }
        ensures { (g : Whole M.State) → Shows g self → (is_liar g liar && are_parties g to.now) ≡ true → IfOk result (λ r. GoesTo (lie g liar to.now (told_by g.setup liar tale)) r.note r.world) }
    {
        match self.liars.sign(self.alloc, &self.setup, liar, tale) {
            Ok(Some(bytes)) => self.sends(&bytes, to),
            Ok(None) => Ok(self.no_subject()),
            Err(SealFault::KeySpent) => Ok(self.noted(Note::Refused(None, Cause::KeySpent))),
            Err(SealFault::Want) => Err(Want),
        }
    }

    fn forge(self, party: Party, to: &Items<Party>, statement: Tellable) -> Result<Noted<M>, Want>
        requires { IsTellable statement }
        ensures { (g : Whole M.State) → Shows g self → IfOk result (λ r. GoesTo (forge g party to.now (if_short g.setup party (Some (telling_of statement)))) r.note r.world) }
    {
        if self.can_forge(party, to) {
            self.forges(party, to, statement)
        } else {
            Ok(self.no_subject())
        }
    }

    fn can_forge(&self, party: Party, to: &Items<Party>) -> bool
        ensures { result ≡ can_forge self.now.seats party to.now }
    {
        self.seats.is_correct(party) && self.seats.are_seated(to.as_slice())
    }

    // Signs with the party's last signature, and sends the frame, unless it is longer than a frame may be.
    fn forges(self, party: Party, to: &Items<Party>, statement: Tellable) -> Result<Noted<M>, Want>
        requires { IsTellable statement }
        ensures { (g : Whole M.State) → Shows g self → (is_correct g party && are_parties g to.now) ≡ true → IfOk result (λ r. GoesTo (forge g party to.now (if_short g.setup party (Some (telling_of statement)))) r.note r.world) }
    {
        match self.forged(party, statement)? {
            Some(bytes) => self.sends(&bytes, to),
            None => Ok(self.no_subject()),
        }
    }

    // The frame under the party's key, made anew, with its last signature.
    #[tactic(auto, using(zy_seal::proofs::SignatureLemmas::least_signatures))]
    fn forged(&self, party: Party, statement: Tellable) -> Result<Option<Bytes>, Want>
        requires { IsTellable statement }
        ensures { IfOk result (IsEncoded (telling_of statement (sealer_of self.now.setup party (signatures_by self.now.setup.height - 1)))) }
    {
        let last = signature_count(self.setup.height) - 1;
        let mut sealer = sealer_at(self.alloc, &self.setup, party, last)?;
        match statement.frame(self.alloc, &mut sealer) {
            Ok(bytes) => Ok(bytes),
            Err(SealFault::KeySpent) => unreachable!(),
            Err(SealFault::Want) => Err(Want),
        }
    }

    fn are_parties(&self, to: &Items<Party>) -> bool
        ensures { (g : Whole M.State) → Shows g self.now → result ≡ are_parties g to.now }
    {
        self.seats.are_seated(to.as_slice())
    }

    fn sends(mut self, bytes: &Bytes, to: &Items<Party>) -> Result<Noted<M>, Want>
        ensures { (g : Whole M.State) → Shows g self → IfOk result (λ r. GoesTo (Goes (with_sent g (copies bytes.now to.now)) Quiet) r.note r.world) }
    {
        self.bag.send_copies(bytes, to)?;
        Ok(self.noted(Note::Quiet))
    }
}
