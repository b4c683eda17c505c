ghost use Rattle.std.specs.Prelude.{◌≡◌};
ghost use Rattle.std.specs.Bool.{Decides};
ghost use Rattle.zy_cert.specs.Equal.{spec-equal, local-equal, hate-equal, check-equal, began-equal, fetch-equal};

use zy_parts::{Began, Check, Fetch, Hate, Local, Spec, Statement};

/// A statement that is told from others of its kind: two are equal where all their fields are, whoever signed them.
pub trait Matching: Statement + Eq {
    ghost equal: { (x y : Self) → Decides (Self.eq x y) (x ≡ y) };
}

impl Matching for Spec {
    ghost equal = { spec-equal };
}

impl Matching for Local {
    ghost equal = { local-equal };
}

impl Matching for Hate {
    ghost equal = { hate-equal };
}

impl Matching for Check {
    ghost equal = { check-equal };
}

impl Matching for Began {
    ghost equal = { began-equal };
}

impl Matching for Fetch {
    ghost equal = { fetch-equal };
}
