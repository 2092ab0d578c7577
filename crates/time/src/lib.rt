// Time ranges (time.rs): each end is included, excluded or absent, and a range may be empty.
#![tactic(auto)]

ghost use Rattle.std.specs.Prelude.{◌≡◌};
ghost use Rattle.time.specs.Time.{lower_met, upper_met, range_of, in_range, later_time, shifted_bound, shifted_range};

pub type Time = u32;

// The last time there is.
pub const LAST: u32 = 4294967295;

#[derive(Clone, Copy)]
pub enum Bound {
    Included(Time),
    Excluded(Time),
    Unbounded,
}

#[derive(Clone, Copy)]
pub struct TimeRange {
    pub lower: Bound,
    pub upper: Bound,
}

// A sum that stops at the last time.
fn later(time: Time, delta: Time) -> Time
    ensures { result ≡ later_time time delta }
{
    time.saturating_add(delta)
}

impl Bound {
    // Whether a lower bound is met at a time.
    pub fn lower_met(self, time: Time) -> bool
        ensures { result ≡ lower_met self time }
    {
        match self {
            Bound::Included(b) => b <= time,
            Bound::Excluded(b) => b < time,
            Bound::Unbounded => true,
        }
    }

    // Whether an upper bound is met at a time; where it is not, it is passed.
    pub fn upper_met(self, time: Time) -> bool
        ensures { result ≡ upper_met self time }
    {
        match self {
            Bound::Included(b) => time <= b,
            Bound::Excluded(b) => time < b,
            Bound::Unbounded => true,
        }
    }

    fn shift(self, delta: Time) -> Bound
        ensures { result ≡ shifted_bound self delta }
    {
        match self {
            Bound::Included(b) => Bound::Included(later(b, delta)),
            Bound::Excluded(b) => Bound::Excluded(later(b, delta)),
            Bound::Unbounded => Bound::Unbounded,
        }
    }
}

// The constructors take the forms that a Rust caller writes as ranges.
impl TimeRange {
    pub fn new(lower: Bound, upper: Bound) -> Self
        ensures { result ≡ range_of lower upper }
    {
        TimeRange { lower, upper }
    }

    // a..b
    pub fn range(start: Time, end: Time) -> Self
        ensures { result ≡ range_of (Bound.Included start) (Bound.Excluded end) }
    {
        TimeRange::new(Bound::Included(start), Bound::Excluded(end))
    }

    // a..=b
    pub fn range_inclusive(start: Time, end: Time) -> Self
        ensures { result ≡ range_of (Bound.Included start) (Bound.Included end) }
    {
        TimeRange::new(Bound::Included(start), Bound::Included(end))
    }

    // a..
    pub fn range_from(start: Time) -> Self
        ensures { result ≡ range_of (Bound.Included start) Bound.Unbounded }
    {
        TimeRange::new(Bound::Included(start), Bound::Unbounded)
    }

    // ..b
    pub fn range_to(end: Time) -> Self
        ensures { result ≡ range_of Bound.Unbounded (Bound.Excluded end) }
    {
        TimeRange::new(Bound::Unbounded, Bound::Excluded(end))
    }

    // ..=b
    pub fn range_to_inclusive(end: Time) -> Self
        ensures { result ≡ range_of Bound.Unbounded (Bound.Included end) }
    {
        TimeRange::new(Bound::Unbounded, Bound::Included(end))
    }

    // ..
    pub fn range_full() -> Self
        ensures { result ≡ range_of Bound.Unbounded Bound.Unbounded }
    {
        TimeRange::new(Bound::Unbounded, Bound::Unbounded)
    }

    pub fn start_bound(self) -> Bound
        ensures { result ≡ self.lower }
    {
        self.lower
    }

    pub fn end_bound(self) -> Bound
        ensures { result ≡ self.upper }
    {
        self.upper
    }

    pub fn contains(self, time: Time) -> bool
        ensures { result ≡ in_range self time }
    {
        self.lower.lower_met(time) && self.upper.upper_met(time)
    }

    // Shifts the range into the future.
    pub fn shift(self, delta: Time) -> Self
        ensures { result ≡ shifted_range self delta }
    {
        TimeRange {
            lower: self.lower.shift(delta),
            upper: self.upper.shift(delta),
        }
    }
}
