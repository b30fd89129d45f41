ghost use Rattle.std.specs.Prelude.{◌≡◌};
ghost use Rattle.granules.specs.Comparison.{has_frame, is_shared, is_guarded};

// The kind of a granule that is not damaged.
#[derive(Clone, Copy, PartialEq, Eq)]
pub enum Kind {
    Vacant,
    Private,
    Shared,
    Guarded,
}

// What a call does to a granule, as data: the kind that it needs and the kind that it makes. The frame follows the kind that is made.
#[derive(Clone, Copy, PartialEq, Eq)]
pub struct Operation {
    pub needs: Kind,
    pub makes: Kind,
}

impl Kind {
    // Whether a granule of this kind has a frame.
    pub(crate) fn has_frame(self) -> bool
        ensures { result ≡ has_frame self }
    {
        matches!(self, Kind::Private | Kind::Shared)
    }

    // Whether the frame of a granule of this kind is shared.
    pub(crate) fn is_shared(self) -> bool
        ensures { result ≡ is_shared self }
    {
        self == Kind::Shared
    }

    // Whether a granule of this kind, without a frame, is guarded.
    pub(crate) fn is_guarded(self) -> bool
        ensures { result ≡ is_guarded self }
    {
        self == Kind::Guarded
    }
}
