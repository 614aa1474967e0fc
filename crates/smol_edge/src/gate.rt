ghost use Rattle.std.specs.Prelude.{◌≡◌};

/// Where a worker may be held before it decides the pairs of a slice. A gate changes no answer: tests
/// use one to bring about an order of work. Both calls return, and threads may share a gate.
pub trait Gate: Sync {
    /// The pair that the worker is to look at before it decides the slice, or nothing to let it go on.
    fn ask(&self, slice: usize) -> Option<usize>;

    /// Tells what that look answered: whether the pair fired, or nothing where it was undecided.
    fn saw(&self, slice: usize, pair: usize, fired: Option<bool>);
}

/// The gate that holds nobody.
#[derive(Clone, Copy, Debug)]
pub struct Open;

impl Gate for Open {
    fn ask(&self, _slice: usize) -> Option<usize>
        ensures open { result ≡ None }
    {
        None
    }

    fn saw(&self, _slice: usize, _pair: usize, _fired: Option<bool>) {}
}
