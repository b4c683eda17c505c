ghost use Rattle.std.specs.Prelude.{◌≡◌, ℕ};
ghost use Rattle.zy_base.specs.declared.ids.Party.{Party};
ghost use Rattle.zy_law_normal.specs.Acts.{statement_by};
ghost use Rattle.zy_table.specs.Deeds.{text_by};
ghost use Rattle.zy_table.specs.declared.deeds.Body.{Body};
ghost use Rattle.zy_law_views.specs.Told.{statement_in};
ghost use Rattle.zy_law_steps.specs.Spelled.{FitsBody};

/// What can be spelled is read back out of the text that is signed, as the law reads it.
pub fn said_back()
    ensures { (r : ℕ) (by : Party) (body : Body) → FitsBody body → statement_in r (text_by by body) ≡ statement_by r body }
{}
