//! The bases of abstract words.

ghost use Rattle.std.specs.Prelude.{◌≡◌};
ghost use Rattle.support_command_line.specs.Bases.{base_named, base_text, is_stamped};

/// The name of a base, or of a pair of bases.
#[derive(Clone, Copy)]
pub enum BaseName {
    Const,
    KSet,
    Interval,
    Affine,
    DefUse,
    ConstInterval,
    KSetInterval,
    KSetAffine,
    KSetDefUse,
    IntervalAffine,
    IntervalDefUse,
    AffineDefUse,
    Bits,
    KSetBits,
    IntervalBits,
    BitsDefUse,
    Strides,
    StridesAffine,
    StridesDefUse,
}

impl BaseName {
    /// The bases in the order in which the documents list them.
    pub const ALL: [BaseName; 19] = [
        BaseName::Const,
        BaseName::KSet,
        BaseName::Interval,
        BaseName::Affine,
        BaseName::DefUse,
        BaseName::ConstInterval,
        BaseName::KSetInterval,
        BaseName::KSetAffine,
        BaseName::KSetDefUse,
        BaseName::IntervalAffine,
        BaseName::IntervalDefUse,
        BaseName::AffineDefUse,
        BaseName::Bits,
        BaseName::KSetBits,
        BaseName::IntervalBits,
        BaseName::BitsDefUse,
        BaseName::Strides,
        BaseName::StridesAffine,
        BaseName::StridesDefUse,
    ];

    /// The base of a name.
    pub fn named(name: &str) -> Option<BaseName>
        ensures { result ≡ base_named name.now }
    {
        BaseName::ALL
            .iter()
            .copied()
            .find(|base| base.name() == name)
    }

    /// Its name.
    pub fn name(self) -> &'static str
        ensures { result.now ≡ base_text self }
    {
        match self {
            BaseName::Const => "const",
            BaseName::KSet => "kset",
            BaseName::Interval => "interval",
            BaseName::Affine => "affine",
            BaseName::DefUse => "defuse",
            BaseName::ConstInterval => "const+interval",
            BaseName::KSetInterval => "kset+interval",
            BaseName::KSetAffine => "kset+affine",
            BaseName::KSetDefUse => "kset+defuse",
            BaseName::IntervalAffine => "interval+affine",
            BaseName::IntervalDefUse => "interval+defuse",
            BaseName::AffineDefUse => "affine+defuse",
            BaseName::Bits => "bits",
            BaseName::KSetBits => "kset+bits",
            BaseName::IntervalBits => "interval+bits",
            BaseName::BitsDefUse => "bits+defuse",
            BaseName::Strides => "strides",
            BaseName::StridesAffine => "strides+affine",
            BaseName::StridesDefUse => "strides+defuse",
        }
    }

    /// Whether its words carry the stamps of cells.
    pub fn is_stamped(self) -> bool
        ensures { result ≡ is_stamped self }
    {
        matches!(
            self,
            BaseName::DefUse
                | BaseName::KSetDefUse
                | BaseName::IntervalDefUse
                | BaseName::AffineDefUse
                | BaseName::BitsDefUse
                | BaseName::StridesDefUse
        )
    }
}
