ghost use Rattle.std.specs.Prelude.{◌≡◌, ◌<◌, ◌≤◌, ◌^◌, ℕ, List, [], ◌∷◌, ◌++◌, length, take, All, Some};
ghost use Rattle.zy_base.specs.declared.ids.Digest.{Digest};
ghost use Rattle.zy_base.specs.declared.ids.Place.{Place};
ghost use Rattle.zy_chain.specs.declared.entry.Entry.{Entry};
ghost use Rattle.zy_chain.specs.Heads.{head_of};
ghost use Rattle.zy_chain.specs.Places.{head_at, entry_at};
ghost use Rattle.zy_chain.specs.Stretch.{head_in, entry_in};
ghost use Rattle.zy_wire.specs.Spelling.{IsBytes};
ghost use Rattle.zy_exec.specs.Replay.{Point, origin, along, step, answer_at};
ghost use Rattle.zy_exec.specs.Kept.{Kept, StandsFor, stretch_of, last_place, now_of, longer, back_to, settled, reply_in};
ghost use Rattle.zy_exec.specs.Snapshot.{snapshot_of};
ghost use Rattle.zy_exec.specs.Shots.{snapshot_in, snapshot_at};
ghost use Rattle.zy_exec.specs.Installed.{IsShown, IsInstalled, IsRunnable};
ghost use Rattle.zy_exec.specs.Showing.{point_in};

use zy_base::Machine;

/// Where an execution stands. Its place is that of the last entry, and one entry more is one step.
pub fn points<M: Machine>()
    ensures place { (k : Kept M.State) → (now_of M.rules k).place ≡ last_place k }
    ensures run { (k : Kept M.State) (e : Entry) → now_of M.rules (longer k e) ≡ step M.rules (now_of M.rules k) e }
{}

/// What an execution keeps, against whole histories. The replay of a history has its length and its head. The empty
/// history stands at the origin. An execution that stands for a history is where the history's replay leads, stands
/// for the longer history after an entry, and for the first entries after it went back.
pub fn histories<M: Machine>()
    ensures place { (history : List Entry) → (along M.rules (origin M.rules) history).place ≡ length history }
    ensures head { (history : List Entry) → (along M.rules (origin M.rules) history).head ≡ head_of history }
    ensures start { (interval : ℕ) → StandsFor M.rules (record { interval = interval; base = origin M.rules; entries = [] }) [] }
    ensures leads { (k : Kept M.State) (history : List Entry) → StandsFor M.rules k history → now_of M.rules k ≡ along M.rules (origin M.rules) history }
    ensures run { (k : Kept M.State) (history : List Entry) (e : Entry) → StandsFor M.rules k history → StandsFor M.rules (longer k e) (history ++ e ∷ []) }
    ensures rollback { (k : Kept M.State) (history : List Entry) (place : ℕ) → k.base.place ≤ place → place ≤ last_place k → StandsFor M.rules k history → StandsFor M.rules (back_to place k) (take place history) }
{}

/// From the base on, an execution that stands for a history has the history's heads, entries and replies.
pub fn places<M: Machine>()
    ensures end { (k : Kept M.State) (history : List Entry) → StandsFor M.rules k history → last_place k ≡ length history }
    ensures head { (k : Kept M.State) (history : List Entry) (place : ℕ) → StandsFor M.rules k history → k.base.place ≤ place → head_in (stretch_of k) place ≡ head_at history place }
    ensures entry { (k : Kept M.State) (history : List Entry) (place : ℕ) → StandsFor M.rules k history → k.base.place < place → entry_in (stretch_of k) place ≡ entry_at history place }
    ensures reply { (k : Kept M.State) (history : List Entry) (place : ℕ) → StandsFor M.rules k history → k.base.place < place → reply_in M.rules k place ≡ answer_at M.rules history place }
{}

/// What a base that moves leaves as it was: where the execution stands, and each history that it stands for. From the
/// base on, an execution that stands for a history has the history's snapshots.
pub fn settling<M: Machine>()
    ensures end { (k : Kept M.State) (place : ℕ) → k.base.place ≤ place → place ≤ last_place k → last_place (settled M.rules place k) ≡ last_place k }
    ensures now { (k : Kept M.State) (place : ℕ) → now_of M.rules (settled M.rules place k) ≡ now_of M.rules k }
    ensures base { (k : Kept M.State) (place : ℕ) → k.base.place ≤ place → place ≤ last_place k → (settled M.rules place k).base.place ≡ place }
    ensures stands { (k : Kept M.State) (history : List Entry) (place : ℕ) → k.base.place ≤ place → place ≤ last_place k → StandsFor M.rules k history → StandsFor M.rules (settled M.rules place k) history }
    ensures snapshot { (k : Kept M.State) (history : List Entry) (place : ℕ) → StandsFor M.rules k history → k.base.place ≤ place → snapshot_in M.rules k place ≡ snapshot_at M.rules k.interval history place }
{}

/// What stands after a snapshot was installed: one execution for these bytes at a place with a head. It stands for every
/// history of that length and head whose snapshot is these bytes.
pub fn installing<M: Machine>()
    ensures one { (interval place : ℕ) (head : Digest) (bytes : List ℕ) (j k : Kept M.State) → IsInstalled M.IsState M.rules interval place head bytes j → IsInstalled M.IsState M.rules interval place head bytes k → j ≡ k }
    ensures shown { (history : List Entry) → All IsRunnable history → length history < 2 ^ 62 → IsShown M.IsState (along M.rules (origin M.rules) history) }
    ensures stands { (interval place : ℕ) (head : Digest) (bytes : List ℕ) (k : Kept M.State) (history : List Entry) → IsInstalled M.IsState M.rules interval place head bytes k → All IsRunnable history → place < 2 ^ 62
        → length history ≡ place → head_of history ≡ head → snapshot_of M.rules (along M.rules (origin M.rules) history) ≡ bytes → StandsFor M.rules k history }
{}

/// What a snapshot's bytes show at a place with a head, as a function of them: what they were spelled from, and they are
/// its spelling. So bytes that show nothing are no snapshot.
pub fn showing<M: Machine>()
    ensures spelled { (place : Place) (head : Digest) (p : Point M.State) → IsShown M.IsState p → point_in M.rules place head (snapshot_of M.rules p) ≡ Some (record { place = place.0; head = head; state = p.state; known = p.known }) }
    ensures shown { (place : Place) (head : Digest) (bytes : List ℕ) → IsBytes bytes → (p : Point M.State) → point_in M.rules place head bytes ≡ Some p → IsShown M.IsState p × (snapshot_of M.rules p ≡ bytes) × (p.place ≡ place.0) × (p.head ≡ head) }
{}
