use lists::List;

/// A message of a transformation: the number of its sheet, counted from 0, and its line.
#[derive(Clone, Debug, Drop, PartialEq, Eq)]
pub struct Message {
    pub sheet: u32,
    pub line: List<u8>,
}

/// A listener that failed: its place in the list that was handed in, counted from 0, and how many messages it had heard.
#[derive(Clone, Copy, Debug, PartialEq, Eq)]
pub struct Dropped {
    pub index: u32,
    pub heard: u64,
}
