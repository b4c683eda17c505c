ghost use Rattle.std.specs.Prelude.{◌≡◌, List, [], ◌∷◌};
ghost use Rattle.zy_choose.specs.Choice.{IsChoice};
ghost use Rattle.zy_law.specs.Conduct.{IsConduct};
ghost use Rattle.zy_law.specs.Example.{example, first_entry, first_mark, reports, second_entry, second_mark};
ghost use Rattle.zy_law.specs.Fixed.{IsCertified, IsFixed};
ghost use Rattle.zy_law.specs.Lawful.{IsLawful};
ghost use Rattle.zy_law.specs.Reports.{IsValidNew};
ghost use Rattle.zy_law.specs.Said.{IsBacked, Stood};
ghost use Rattle.zy_law.specs.World.Statement.{Local, Spec};
ghost use Rattle.zy_law.specs.World.{Answer};

/// There is a lawful world that all this speaks of: of four replicas one lies, one entry is fixed fast and one slow, three
/// leave view 0, and the choice of their valid new view is the history in which they stand in view 1.
pub fn a_lawful_world()
    ensures size { (example.counts.n ≡ 4) × (example.counts.f ≡ 1) }
    ensures lawful { IsLawful example }
    ensures conduct { IsConduct example }
    ensures fast { (a : Answer) × IsBacked example 4 (Spec 0 first_mark a) }
    ensures slow { IsCertified example 0 second_mark × IsBacked example 3 (Local 0 second_mark) }
    ensures fixed { IsFixed example 0 first_mark × IsFixed example 0 second_mark }
    ensures valid { IsValidNew example 1 reports }
    ensures choice { IsChoice example.next example.counts.agree reports second_mark }
    ensures stands { Stood example 2 3 (record { view = 1; history = first_entry ∷ second_entry ∷ [] }) }
{}
