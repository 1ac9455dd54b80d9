//! The regions of the counties that no shared set has.

ghost use Rattle.std.specs.Prelude.{◌≡◌, ℕ, ◌==◌, min, not, List, fold, map, filter, IfOk, if◌then◌else◌};
ghost use Rattle.std.specs.List.{list_any};
ghost use Rattle.grouping_laws.specs.Sets.{contains};
ghost use Rattle.county_codes.specs.Counties.{codes_of};
ghost use Rattle.list_report.specs.Regions.{unshared_counties, join, first_county, regions};
ghost use Rattle.list_report.specs.Places.{places_met, moved, places_at};

use county_codes::{Codes, County, CountyCode, has_code};
use std::alloc::{AllocError, Global};

/// A county of no shared set, and the first county of its region.
#[derive(Clone, Copy, Debug)]
pub(crate) struct Place {
    /// The code of the county.
    pub(crate) county: CountyCode,
    /// The code of the first county of its region.
    pub(crate) first: CountyCode,
}

/// Returns whether one of the `sets` has the `code`.
fn is_taken(sets: &[Codes], code: CountyCode) -> bool
    ensures { result ≡ list_any (λ s. contains s code) sets.now }
{
    sets.iter().any(|set| has_code(set.as_slice(), code))
}

/// Returns the codes of those of the `counties` that no `shared` set has, in their order.
fn unshared_codes(
    alloc: Global,
    counties: &[County],
    shared: &[Codes],
) -> Result<Vec<CountyCode>, AllocError>
    ensures { IfOk result (λ v. v.items ≡ unshared_counties (codes_of counties.now) shared.now) }
{
    let mut unshared = Vec::new(alloc);
    for county in counties {
        if !is_taken(shared, county.code) {
            unshared.push(county.code)?;
        }
    }
    Ok(unshared)
}

/// Returns the places where each of the `unshared` counties is a region of its own.
fn lone_places(alloc: Global, unshared: &[CountyCode]) -> Result<Vec<Place>, AllocError>
    ensures { IfOk result (λ v. v.items ≡ places_at (λ c. c) unshared.now) }
{
    let mut places = Vec::new(alloc);
    for county in unshared {
        places.push(Place {
            county: *county,
            first: *county,
        })?;
    }
    Ok(places)
}

/// Returns the first counties of the regions that `set` meets, one for each of the `places` whose county is in the set.
fn met_by(
    alloc: Global,
    places: &[Place],
    set: &[CountyCode],
) -> Result<Vec<CountyCode>, AllocError>
    ensures { IfOk result (λ v. v.items ≡ places_met places.now set.now) }
{
    let mut met = Vec::new(alloc);
    for place in places {
        if has_code(set, place.county) {
            met.push(place.first)?;
        }
    }
    Ok(met)
}

/// Returns the least of `start` and the `codes`.
fn least(start: CountyCode, codes: &[CountyCode]) -> CountyCode
    ensures { result ≡ fold min start codes.now }
{
    let mut least = start;
    for code in codes {
        if *code < least {
            least = *code;
        }
    }
    least
}

/// Returns the first county of a region whose first county was `first`, once the regions with their first counties in
/// `met` are one region.
fn first_now(met: &[CountyCode], first: CountyCode) -> CountyCode
    ensures { result ≡ moved met.now first }
{
    if has_code(met, first) {
        least(first, met)
    } else {
        first
    }
}

/// Returns the places once `set` has joined the regions that it meets.
fn after_join(alloc: Global, places: &[Place], set: &[CountyCode]) -> Result<Vec<Place>, AllocError>
    ensures { IfOk result (λ v. v.items
        ≡ map (λ p. record { county = p.county; first = moved (places_met places.now set.now) p.first }) places.now) }
{
    let met = met_by(alloc, places, set)?;
    let mut joined = Vec::new(alloc);
    for place in places {
        joined.push(Place {
            county: place.county,
            first: first_now(&met, place.first),
        })?;
    }
    Ok(joined)
}

/// Returns the places once all `sets` have joined regions.
fn joined_places(
    alloc: Global,
    unshared: &[CountyCode],
    sets: &[Codes],
) -> Result<Vec<Place>, AllocError>
    ensures { IfOk result (λ v. v.items ≡ places_at (first_county unshared.now sets.now) unshared.now) }
{
    let mut places = lone_places(alloc, unshared)?;
    for set in sets {
        places = after_join(alloc, &places, set.as_slice())?;
    }
    Ok(places)
}

/// Returns the counties of the region whose first county is `first`.
fn region_of(alloc: Global, places: &[Place], first: CountyCode) -> Result<Codes, AllocError>
    ensures { IfOk result (λ v. v ≡ map (λ p. p.county) (filter (λ p. p.first == first) places.now)) }
{
    let mut counties = Vec::new(alloc);
    for place in places {
        if place.first == first {
            counties.push(place.county)?;
        }
    }
    Ok(Codes::new(counties))
}

/// Returns the regions of the `places`, each where its first county stands.
fn place_regions(alloc: Global, places: &[Place]) -> Result<Vec<Codes>, AllocError>
    ensures { IfOk result (λ v. v.items
        ≡ map (λ q. map (λ p. p.county) (filter (λ p. p.first == q.county) places.now)) (filter (λ q. q.first == q.county) places.now)) }
{
    let mut regions = Vec::new(alloc);
    for place in places {
        if place.first == place.county {
            regions.push(region_of(alloc, places, place.county)?)?;
        }
    }
    Ok(regions)
}

/// Returns the regions of the counties that no shared set has. The region of the least county comes first. The `sets`
/// join the counties.
pub(crate) fn regions_between(
    alloc: Global,
    counties: &[County],
    shared: &[Codes],
    sets: &[Codes],
) -> Result<Vec<Codes>, AllocError>
    ensures { IfOk result (λ v. v.items ≡ regions (unshared_counties (codes_of counties.now) shared.now) sets.now) }
{
    let unshared = unshared_codes(alloc, counties, shared)?;
    let places = joined_places(alloc, &unshared, sets)?;
    place_regions(alloc, &places)
}
