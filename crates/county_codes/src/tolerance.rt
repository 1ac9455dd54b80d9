//! The tolerance: the fraction of the ideal population by which the people of a district may differ from it.

ghost use Rattle.std.specs.Prelude.{◌≡◌, ◌≤◌};
ghost use Rattle.county_codes.specs.Tolerances.{is_tolerance, same_tolerance};

/// The tolerance of an apportionment: the fraction of the ideal population by which the people of a district may differ
/// from it. *Stephenson v. Bartlett* allows one twentieth, five percent. A court order or another state may
/// set another tolerance.
///
/// ```
/// let two_percent = Tolerance { numerator: 1, denominator: 50 };
/// two_percent.is_in_range()                                    // true
/// two_percent.same_as(Tolerance { numerator: 2, denominator: 100 })          // true: the fractions are equal
/// Tolerance { numerator: 3, denominator: 5 }.is_in_range()                   // false: more than a half
/// ```
#[derive(Clone, Copy, Debug, PartialEq, Eq)]
pub struct Tolerance {
    /// The numerator: 0 to 500, and at most half of the denominator.
    pub numerator: u16,
    /// The denominator: 1 to 1,000.
    pub denominator: u16,
}

impl Tolerance {
    /// Returns one twentieth, the five percent of *Stephenson v. Bartlett*.
    pub fn twentieth() -> Tolerance
        ensures { result ≡ Rattle.county_codes.specs.Tolerances.twentieth }
    {
        Tolerance {
            numerator: 1,
            denominator: 20,
        }
    }

    /// Returns whether the denominator is from 1 to 1,000 and the fraction is at most a half.
    pub fn is_in_range(self) -> bool
        ensures { result ≡ is_tolerance self }
    {
        1 <= self.denominator
            && self.denominator <= 1000
            && 2 * u32::from(self.numerator) <= u32::from(self.denominator)
    }

    /// Returns whether this fraction and `other` are equal, such as 1/20 and 5/100.
    pub fn same_as(self, other: Tolerance) -> bool
        ensures { result ≡ same_tolerance self other }
    {
        u32::from(self.numerator) * u32::from(other.denominator)
            == u32::from(other.numerator) * u32::from(self.denominator)
    }
}
