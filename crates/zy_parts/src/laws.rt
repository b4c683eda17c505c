ghost use Rattle.std.specs.Prelude.{◌≡◌};
ghost use Rattle.zy_base.specs.declared.ids.Party.{Party};
ghost use Rattle.zy_wire.specs.Fields.{IsParty};
ghost use Rattle.zy_parts.specs.Signing.{text_of};

use crate::Statement;

/// A signed text says who signed what: two texts that are one have one number, one signer and equal fields.
pub fn one_statement<S: Statement, T: Statement>()
    ensures one { (by from : Party) (x : S) (y : T) → IsParty by → IsParty from
        → text_of S.its_number S.spelling by x ≡ text_of T.its_number T.spelling from y
        → (S.its_number ≡ T.its_number) × (by ≡ from) × (S.spelling.spell x ≡ T.spelling.spell y) }
    ensures same { (by from : Party) (x y : S) → IsParty by → IsParty from → S.spelling.Fits x → S.spelling.Fits y
        → text_of S.its_number S.spelling by x ≡ text_of S.its_number S.spelling from y → (by ≡ from) × (x ≡ y) }
{}
