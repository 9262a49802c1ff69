// The rows of the grid.

// What became of a packet or a fragment, in the order of the grid and of the printout.
#[derive(Clone, Copy)]
pub enum Row {
    Sent,
    Superseded,
    Flushed,
    Broken,
    Over,
    Short,
    LinkDown,
    Aborted,
    BadLength,
    BadCheck,
}
