ghost use Rattle.std.specs.Prelude.{◌≡◌, ◌<◌, ◌≤◌, ◌%◌, ◌↔◌, ℕ, [], Contains, IsSome, Some};
ghost use Rattle.zy_base.specs.declared.ids.Digest.{Digest};
ghost use Rattle.zy_base.specs.declared.ids.Place.{Place};
ghost use Rattle.zy_chain.specs.Stretch.{Stretch, IsShared, end_of, entry_in, head_in};
ghost use Rattle.zy_parts.specs.declared.reports.Told.{Told};
ghost use Rattle.zy_parts.specs.declared.statements.Check.{Check};
ghost use Rattle.zy_exec.specs.Kept.{Kept, stretch_of, last_place};
ghost use Rattle.zy_evidence.specs.Reading.{stretch_of as told_stretch};
ghost use Rattle.zy_table.specs.declared.deeds.Verdict.TheVariants.{Take};
ghost use Rattle.zy_table.specs.Adopting.{verdict_of, common_with, taken_over, gots_of, checkpoints_between};
ghost use Rattle.zy_replica_adopt.specs.Meeting.{Meets};

use zy_base::Machine;

/// Where the own base is the stable checkpoint, and the report has the chosen head at the chosen place: what the verdict
/// lets it take up meets the own history at or above both bases.
pub fn verdicts<M: Machine>()
    ensures { (k : Kept M.State) (stable : Check) (told : Told) (place : Place) (head : Digest) → stable.place.0 ≡ k.base.place → stable.head ≡ k.base.head → head_in (told_stretch told) place.0 ≡ Some head → verdict_of M.rules k stable told place head ≡ Take → Meets (told_stretch told) place.0 k }
{}

/// The history that is taken up ends at the place. Up to where both meet it is the own one, and from there on the
/// report's. Nothing is executed where the own history ends at the place with the report's head.
pub fn adoptions<M: Machine>()
    ensures end { (told : Stretch) (place : ℕ) (k : Kept M.State) → Meets told place k → place ≤ end_of told → last_place (taken_over told place k) ≡ place }
    ensures own { (told : Stretch) (place at : ℕ) (k : Kept M.State) → Meets told place k → at ≤ common_with told place k → head_in (stretch_of (taken_over told place k)) at ≡ head_in (stretch_of k) at }
    ensures told { (told : Stretch) (place at : ℕ) (k : Kept M.State) → Meets told place k → place ≤ end_of told → common_with told place k ≤ at → at ≤ place → head_in (stretch_of (taken_over told place k)) at ≡ head_in told at }
    ensures same { (told : Stretch) (k : Kept M.State) → IsShared told (stretch_of k) (last_place k) → taken_over told (last_place k) k ≡ k }
    ensures nothing { (told : Stretch) (k : Kept M.State) → IsShared told (stretch_of k) (last_place k) → gots_of M.rules told (last_place k) k ≡ [] }
{}

/// The checkpoints between two places are the multiples of the interval above the one up to the other. An entry leads to
/// each of them in the history that is taken up.
pub fn checkpoints<M: Machine>()
    ensures places { (interval low high at : ℕ) → Contains (checkpoints_between interval low high) at ↔ ((low < at) × (at ≤ high) × (at % interval ≡ 0)) }
    ensures entries { (interval low place at : ℕ) (told : Stretch) (k : Kept M.State) → Meets told place k → place ≤ end_of told → k.base.place ≤ low → Contains (checkpoints_between interval low place) at → IsSome (entry_in (stretch_of (taken_over told place k)) at) }
{}
