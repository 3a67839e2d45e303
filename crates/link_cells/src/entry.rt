/// One set: the number of the word, counted from 0, and its value. Contracts alone speak of it: a list of
/// these is the log of a writer.
pub struct Entry {
    pub at: u64,
    pub value: u64,
}
