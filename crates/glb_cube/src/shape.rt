//! The numbers that fix a lifeline graph, the digits of a place, and where its lifeline in one
//! dimension leads. A dimension is named by its unit, the power of the base that its digit counts.
ghost use Rattle.std.specs.Prelude.{◌≡◌, ◌+◌, ◌*◌, ◌^◌, ◌<◌, ◌≤◌};
ghost use Rattle.glb_cube.specs.Digits.{digit as spec_digit, target as spec_target};
ghost use Rattle.glb_cube.specs.Lines.{IsDimension};

/// So many places, as numbers of so many digits in the base.
#[derive(Clone, Copy)]
pub(crate) struct Shape {
    pub(crate) places: u32,
    pub(crate) base: u32,
    pub(crate) dimension: u32,
    ghost few: { (1 ≤ places) × (places ≤ 64) },
    ghost base_range: { (2 ≤ base) × (base ≤ 64) },
    ghost least: { IsDimension places base dimension },
}

/// The least number of digits from 1 up with which each place has a number of its own.
fn dimension_of(places: u32, base: u32) -> u32
    requires places { places ≤ 64 }
    requires base { (2 ≤ base) × (base ≤ 64) }
    ensures { IsDimension places base result }
{
    let mut dimension = 1;
    let mut power = base;
    while power < places {
        power *= base;
        dimension += 1;
    }
    dimension
}

impl Shape {
    pub(crate) fn new(places: u32, base: u32) -> Shape
        requires places { (1 ≤ places) × (places ≤ 64) }
        requires base { (2 ≤ base) × (base ≤ 64) }
        ensures places { result.places ≡ places }
        ensures base { result.base ≡ base }
    {
        let dimension = dimension_of(places, base);
        Shape {
            places,
            base,
            dimension,
        }
    }

    pub(crate) fn digit(self, unit: u32, place: u32) -> u32
        requires { 1 ≤ unit }
        ensures { result ≡ spec_digit self.base unit place }
    {
        place / unit % self.base
    }

    /// Where the place's lifeline in the dimension leads, if it has one there.
    pub(crate) fn target(self, unit: u32, place: u32) -> Option<u32>
        requires unit { (1 ≤ unit) × (unit ≤ 64) }
        requires place { place < self.places }
        ensures { result ≡ spec_target self.places self.base unit place }
    {
        let digit = self.digit(unit, place);
        if digit + 1 < self.base && place + unit < self.places {
            Some(place + unit)
        } else if digit > 0 {
            // No place has a higher digit there, so the next one is 0.
            Some(place - digit * unit)
        } else {
            None
        }
    }
}
