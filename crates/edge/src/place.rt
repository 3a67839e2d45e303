/// Where a put stands in the bytes of a drawer over memory: its name from `start`, its bytes from `middle` to `end`.
#[derive(Clone, Copy, Debug, PartialEq, Eq)]
pub struct Place {
    pub start: usize,
    pub middle: usize,
    pub end: usize,
}
