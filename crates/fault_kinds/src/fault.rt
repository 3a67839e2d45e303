ghost use Rattle.std.specs.Prelude.{◌≡◌};
ghost use Rattle.fault_kinds.specs.FaultName.{fault_name};

/// Why a transformation ends before its document does.
#[derive(Clone, Copy, Debug, PartialEq, Eq)]
pub enum FaultKind {
    /// No unit of the budget of steps is left.
    Budget,
    /// A 501st nested template.
    TooDeep,
    /// A message that terminates (XSLT 1.0, section 13).
    Terminated,
    /// A number whose magnitude is above 9,007,199,254,740,991.
    NumberRange,
    /// A number that is not whole.
    Fraction,
    /// A value that is no node-set where one is needed (XPath 1.0, section 3.3).
    NotNodeSet,
    /// A computed name that is none: no name, an attribute that would declare a namespace, or the target of an
    /// instruction that is no NCName or is `xml` in any case (XSLT 1.0, sections 7.1.2, 7.1.3 and 7.3).
    BadName,
    /// A computed name whose prefix is bound to no namespace (XML Namespaces, section 2).
    UnboundPrefix,
}

impl FaultKind {
    /// The name of the variant, as console lines print it.
    pub fn name(self) -> &'static str
        ensures { result.now ≡ fault_name self }
    {
        match self {
            FaultKind::Budget => "Budget",
            FaultKind::TooDeep => "TooDeep",
            FaultKind::Terminated => "Terminated",
            FaultKind::NumberRange => "NumberRange",
            FaultKind::Fraction => "Fraction",
            FaultKind::NotNodeSet => "NotNodeSet",
            FaultKind::BadName => "BadName",
            FaultKind::UnboundPrefix => "UnboundPrefix",
        }
    }
}
