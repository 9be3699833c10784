use outputs::Gathered;

/// Where the program writes: what it answers, gathered, and what is said of a fault.
#[derive(Drop)]
pub struct Console<W, E> {
    pub out: Gathered<W>,
    pub err: E,
}

/// What the program is given beside its words: files, databases, archives, what a client asks, and where
/// objects are read that it asks to be added.
#[derive(Drop)]
pub struct Given<S, D, K, N, I> {
    pub source: S,
    pub databases: D,
    pub archives: K,
    pub additions: N,
    pub input: I,
}
