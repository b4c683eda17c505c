ghost use Rattle.std.specs.Prelude.{◌≡◌};
ghost use Rattle.zy_base.specs.declared.ids.View.{View};
ghost use Rattle.zy_base.specs.declared.ids.Place.{Place};
ghost use Rattle.zy_base.specs.declared.ids.Digest.{Digest};
ghost use Rattle.zy_cert.specs.Points.{point_of_spec, point_of_local, point_of_check, point_of_began};

use crate::Matching;
use zy_base::{Digest, Place, View};
use zy_parts::{Began, Check, Local, Spec};

/// A statement that names a view, a place of its history and the head there.
pub trait Located: Matching {
    ghost point_of: { Self → View × Place × Digest };

    /// The view, the place and the head.
    fn point(&self) -> (View, Place, Digest)
        ensures { result ≡ point_of self.now };
}

impl Located for Spec {
    ghost point_of = { point_of_spec };

    fn point(&self) -> (View, Place, Digest) {
        (self.view, self.place, self.head)
    }
}

impl Located for Local {
    ghost point_of = { point_of_local };

    fn point(&self) -> (View, Place, Digest) {
        (self.view, self.place, self.head)
    }
}

impl Located for Check {
    ghost point_of = { point_of_check };

    fn point(&self) -> (View, Place, Digest) {
        (self.view, self.place, self.head)
    }
}

impl Located for Began {
    ghost point_of = { point_of_began };

    fn point(&self) -> (View, Place, Digest) {
        (self.view, self.place, self.head)
    }
}
