/// Which calls of a machine may come next.
#[derive(Clone, Copy, Debug)]
pub enum Mode {
    /// It was just made or restarted.
    Fresh,
    /// Its last call made an instant, which is ready.
    Stands,
    /// A flow was made after that, which is ready.
    Flows,
    /// A fault or a missing value was answered: only `restart` may come.
    Over,
}
