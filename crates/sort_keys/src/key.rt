use lists::List;
use whole_num::Num;

/// A sort key of a node.
#[derive(Clone, Debug, Drop, PartialEq, Eq)]
pub enum KeyPart {
    Text(List<u8>),
    Number(Num),
}

/// The sort keys of a node, the first of which counts first.
pub type KeyRow = List<KeyPart>;

/// How keys are compared: as numbers or as texts, and which way round.
#[derive(Clone, Copy, Debug, PartialEq, Eq)]
pub struct How {
    pub number: bool,
    pub descending: bool,
}
