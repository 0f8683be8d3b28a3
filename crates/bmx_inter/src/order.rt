//! The order of pairs.
ghost use Rattle.std.specs.Prelude.{◌≡◌, ℕ, IsTrue, MatchResult};
ghost use Rattle.bmx_types.specs.declared.names.Pair.{Pair};
ghost use Rattle.bmx_inter.specs.Order.{is_ahead, is_same, is_listed, IsInOrder};
ghost use Rattle.bmx_inter.specs.Inside.Search.{StandsAt, FitsAt};

use bmx_types::{BunchNo, Pair};

/// What is kept for one reference.
pub trait OfPair {
    // The reference.
    ghost pair_of: { Self → Pair };

    /// The reference: its source and its target.
    fn pair(&self) -> Pair
        ensures { result ≡ pair_of self.now };
}

/// What is kept for one reference, of one bunch.
pub trait OfBunch: OfPair {
    // The bunch of its source.
    ghost bunch_of: { Self → ℕ };

    /// The bunch of its source.
    fn bunch(&self) -> BunchNo
        ensures { result ≡ bunch_of self.now };
}

impl OfPair for Pair {
    ghost pair_of = { λ p. p };

    fn pair(&self) -> Pair {
        *self
    }
}

/// Whether one stands before the other: its source is smaller, or its source is the same and its
/// target is smaller.
fn is_ahead(a: Pair, b: Pair) -> bool
    ensures { result ≡ is_ahead a b }
{
    let (source, other) = (a.source.word(), b.source.word());
    source < other || source == other && a.target.word() < b.target.word()
}

/// Whether both are one.
pub fn is_same(a: Pair, b: Pair) -> bool
    ensures { result ≡ is_same a b }
{
    a.source == b.source && a.target == b.target
}

/// Where the one of the pair stands, or else where it would.
pub fn search<T: OfPair>(items: &[T], pair: Pair) -> Result<usize, usize>
    requires { IsInOrder T.pair_of items.now }
    ensures { MatchResult result (StandsAt T.pair_of items.now pair) (FitsAt T.pair_of items.now pair) }
{
    let i = items.partition_point(|x| is_ahead(x.pair(), pair));
    match items.get(i) {
        Some(x) if is_same(x.pair(), pair) => Ok(i),
        _ => Err(i),
    }
}

/// Whether the pairs rise: each stands before the next.
pub fn is_rising(pairs: &[Pair]) -> bool
    ensures rising { IsTrue result → IsInOrder (λ p. p) pairs.now }
    ensures exact { IsInOrder (λ p. p) pairs.now → IsTrue result }
{
    pairs.is_sorted_by(|a, b| is_ahead(*a, *b))
}

/// Whether the pairs list this one. Logarithmic where they are known to rise, else linear.
pub fn is_listed(pairs: &[Pair], rising: bool, pair: Pair) -> bool
    requires { IsTrue rising → IsInOrder (λ p. p) pairs.now }
    ensures { result ≡ is_listed pairs.now pair }
{
    if rising {
        search(pairs, pair).is_ok()
    } else {
        pairs.iter().any(|p| is_same(*p, pair))
    }
}
