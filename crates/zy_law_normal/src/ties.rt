ghost use Rattle.std.specs.Prelude.{◌≡◌, ◌+◌, List, map, ℕ};
ghost use Rattle.zy_base.specs.declared.ids.Party.{Party};
ghost use Rattle.zy_chain.specs.declared.entry.Entry.{Entry};
ghost use Rattle.zy_law.specs.Steps.{after_acts, grown};
ghost use Rattle.zy_law.specs.World.{World};
ghost use Rattle.zy_law_normal.specs.Acts.{law_acts, spoken_in, stands_in, with_more};
ghost use Rattle.zy_table.specs.Deeds.{said_from};
ghost use Rattle.zy_table.specs.declared.deeds.Act.{Act};

/// The world after a replica's acts has longer lists of what it said and where it stood, and is else as before. Each
/// statement has the number of the last stand before the step, and one more for each entry that was executed and each view
/// that began by then.
pub fn acts_told()
    ensures lists { (w : World) (r view number : ℕ) (h : List Entry) (acts : List Act) → after_acts w r (law_acts r view number h acts) ≡ grown w w.asked (with_more w.said r (spoken_in r number acts)) (with_more w.past r (stands_in view h acts)) w.kept }
    ensures numbers { (me : Party) (r number : ℕ) (acts : List Act) → map (λ x. x.when) (spoken_in r number acts) ≡ map (λ x. number + x.pairs) (said_from me 0 acts) }
{}
