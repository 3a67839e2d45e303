ghost use Rattle.std.specs.Prelude.{◌≡◌};
ghost use Rattle.text_walk.specs.FaultName.{fault_name};

/// Why a transformation ends before its document does.
#[derive(Clone, Copy, Debug, PartialEq, Eq)]
pub enum FaultKind {
    /// A 501st nested template.
    TooDeep,
}

impl FaultKind {
    /// The name of the variant, as console lines print it.
    pub fn name(self) -> &'static str
        ensures { result.now ≡ fault_name self }
    {
        match self {
            FaultKind::TooDeep => "TooDeep",
        }
    }
}
