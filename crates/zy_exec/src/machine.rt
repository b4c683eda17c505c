//! Calls of a machine that do all or nothing.

ghost use Rattle.std.specs.Prelude.{◌≡◌, ◌<◌, [], ◌∷◌, ◌++◌, length, IfOk, OnOk, OnErr};
ghost use Rattle.zy_chain.specs.Answers.{FitsAnswers};

use std::marker::Brand;
use std::sync::ledger::{Blank, Ledger};
use zy_base::{Bytes, ClientId, Machine, Steps, Want};

/// Runs an operation. The reply comes twice: to be kept, and to be given.
pub fn apply<M: Machine>(
    machine: &mut M,
    client: ClientId,
    op: &[u8],
) -> Result<(Bytes, Bytes), Want>
    ensures kept { IfOk result (λ replies. replies.0 ≡ M.rules.reply (M.state machine.old) client op.now) }
    ensures given { IfOk result (λ replies. replies.1 ≡ M.rules.reply (M.state machine.old) client op.now) }
    ensures short { IfOk result (λ replies. FitsAnswers replies.1) }
    ensures short_kept { IfOk result (λ replies. FitsAnswers replies.0) }
    ensures state { OnOk result (M.state machine.new ≡ M.rules.next (M.state machine.old) client op.now) }
    ensures trail { OnOk result (M.trail machine.new ≡ M.trail machine.old ++ M.state machine.old ∷ []) }
    ensures same_state { OnErr result (M.state machine.new ≡ M.state machine.old) }
    ensures same_trail { OnErr result (M.trail machine.new ≡ M.trail machine.old) }
{
    let reply = machine.apply(client, op)?;
    match reply.clone() {
        Ok(kept) => Ok((kept, reply)),
        Err(_) => {
            take_back(machine);
            Err(Want)
        }
    }
}

/// Goes back where nothing counts.
pub fn take_back<M: Machine>(machine: &mut M)
    requires { 0 < length (M.trail machine.old) }
    ensures { M.trail machine.old ≡ M.trail machine.new ++ M.state machine.new ∷ [] }
{
    undo_in::<M, Brand>(machine, Blank::new(1));
}

fn undo_in<M: Machine, L: Ledger>(machine: &mut M, blank: Blank)
    requires name { blank.name ≡ L.name }
    requires parts { blank.parts ≡ L.parts }
    requires some { 0 < blank.parts }
    requires trail { 0 < length (M.trail machine.old) }
    ensures { M.trail machine.old ≡ M.trail machine.new ++ M.state machine.new ∷ [] }
{
    let mut steps = Steps::<L>::start(blank);
    machine.undo(&mut steps);
}
