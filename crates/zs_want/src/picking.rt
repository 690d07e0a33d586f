//! What is read next.

ghost use Rattle.std.specs.Prelude.{◌≡◌, ◌<◌, ◌≤◌, ◌+◌, length, ◌==◌, position};
ghost use Rattle.zs_want.specs.Closures.{ArePicks};
ghost use Rattle.zs_want.specs.Picking.{picked, most_sectors, or_first};

/// Pieces that wait and lie close to each other on one mirror.
#[derive(Clone, Copy, Debug, PartialEq, Eq)]
pub struct Span {
    /// The first sector.
    pub first: u32,
    /// The last sector.
    pub last: u32,
    /// How many sectors wait in it.
    pub sectors: u64,
}

/// By which order the spans are read.
#[derive(Clone, Copy, Debug, PartialEq, Eq)]
pub enum Order {
    /// The lowest address first.
    Address,
    /// The span in which the most sectors wait first.
    Score,
}

/// A closure that picks the span that is read next.
#[derive(Clone, Copy)]
pub struct Pick<P> {
    p: P,
}

impl<P: Fn(&[Span], Order) -> usize> Pick<P> {
    /// Asks this closure.
    pub fn new(p: P) -> Pick<P> {
        Pick { p }
    }

    /// The number, from 0, of the span that is read next, of spans in order of address.
    #[tactic(auto, using(crate::proofs::Within::is_within))]
    pub fn ask(&self, spans: &[Span], order: Order) -> usize
        requires picks { ArePicks P.Fn }
        requires some { 0 < length spans.now }
        ensures picked { result ≡ picked spans.now order }
        ensures within { result < length spans.now }
    {
        (self.p)(spans, order)
    }
}

/// The number, from 0, of the span that is read next, of spans in order of address: the first one by address, and
/// by score the one in which the most sectors wait, of several such the first. 0 where there are none.
#[tactic(auto, unfolding(crate::specs::Picking::picked))]
pub fn pick_of(spans: &[Span], order: Order) -> usize
    ensures { result ≡ picked spans.now order }
{
    match order {
        Order::Address => 0,
        Order::Score => first_with(most_sectors(spans), spans),
    }
}

/// The most sectors that wait in one of the spans.
fn most_sectors(spans: &[Span]) -> u64
    ensures { result ≡ most_sectors spans.now }
{
    let mut most = 0;
    for span in spans {
        most = most.max(span.sectors);
    }
    most
}

/// The number of the first span in which so many sectors wait; 0 where there is none.
fn first_with(most: u64, spans: &[Span]) -> usize
    ensures { result ≡ or_first (position (λ span. span.sectors == most) spans.now) }
{
    match place_with(most, spans) {
        Some(at) => at,
        None => 0,
    }
}

/// The number of the first span in which so many sectors wait.
fn place_with(most: u64, spans: &[Span]) -> Option<usize>
    ensures { result ≡ position (λ span. span.sectors == most) spans.now }
{
    spans.iter().position(|span| span.sectors == most)
}
