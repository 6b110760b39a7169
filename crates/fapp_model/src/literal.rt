/// A choice of a path: the path's position and the choice's index.
#[derive(Clone, Copy, Debug, PartialEq, Eq, PartialOrd, Ord)]
pub struct Literal {
    pub path: u16,
    pub choice: u16,
}
