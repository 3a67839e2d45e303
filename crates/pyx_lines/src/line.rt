use lists::List;

/// What a line of the notation spells. Names, values and texts are UTF-8.
#[derive(Clone, Debug, Drop, PartialEq, Eq)]
pub enum Line {
    /// `(name`
    Start(List<u8>),
    /// `)name`
    End(List<u8>),
    /// `Aname value`
    Attr { name: List<u8>, value: List<u8> },
    /// `-text`
    Text(List<u8>),
    /// `?target value`
    Instruction { target: List<u8>, value: List<u8> },
    /// `Ctext`
    Comment(List<u8>),
    /// An empty line, or one that begins with `B` or one of `D` to `Z`.
    Passed,
}
