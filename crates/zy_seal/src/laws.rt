ghost use Rattle.std.specs.Prelude.{◌≡◌, ◌<◌, Some};
ghost use Rattle.zy_lms.specs.Hss.{IsHssKey, hss_public_of};
ghost use Rattle.zy_parts.specs.Signing.{text_of};
ghost use Rattle.zy_seal.specs.Keys.{Keys, key_of};
ghost use Rattle.zy_seal.specs.Checking.{answer_of};
ghost use Rattle.zy_seal.specs.Sealing.{SealerState, signatures_by, sealed_by, IsSealed};

use crate::SealAnswer;
use zy_parts::Statement;

/// What a party with a signature left seals: it is signed by that, and a directory with the party's key accepts it.
pub fn seals<S: Statement>()
    ensures sealed { (sealer : SealerState) (stmt : S) → IsHssKey sealer.key → sealer.key.next < signatures_by sealer.key.height → IsSealed S.its_number S.spelling sealer stmt (sealed_by S.its_number S.spelling sealer stmt) }
    ensures accepted { (keys : Keys) (sealer : SealerState) (stmt : S) → IsHssKey sealer.key → sealer.key.next < signatures_by sealer.key.height → key_of keys sealer.me ≡ Some (hss_public_of sealer.key)
        → answer_of keys sealer.me (text_of S.its_number S.spelling sealer.me stmt) (sealed_by S.its_number S.spelling sealer stmt).sig ≡ SealAnswer.Yes }
{}
