//! Weights of the counties, with the weight of each group and of all counties kept from change to change.

ghost use Rattle.std.specs.Prelude.{◌≡◌, ℕ, true, ◌<◌, ◌≤◌, length, All, IfOk};

use place_sets::CountySet;
use std::alloc::{AllocError, Global};

/// The greatest weight of a county.
const MOST: u32 = 1_000_000;

/// The weight above which all weights are halved.
const HEAVY: u32 = 400_000;

/// The weights of the counties by place, the weights of the groups by index, and the weight of all counties. A group
/// weighs what its counties weigh together. No sum saturates, because a problem has at most 256 counties.
///
/// The methods take `having`, which contains for each place the indices of the groups that have it.
#[derive(Drop)]
pub(crate) struct KeptSums {
    pub(crate) weights: Vec<u32>,
    pub(crate) sums: Vec<u64>,
    pub(crate) total: u64,
    ghost range: { All (λ w. w ≤ 1000000) weights.items },
}

/// Changes the sum of each of these `groups`, which are given by index, as a county's weight changes from `before` to
/// `after`.
fn change_sums(sums: &mut [u64], groups: &[u16], before: u32, after: u32)
    requires below { All (λ i. i < length sums.old) groups.now }
    ensures count { length sums.new ≡ length sums.old }
{
    // If the weight falls, the difference wraps, and the sum wraps back.
    let difference = u64::from(after).wrapping_sub(u64::from(before));
    for group in groups {
        let index = usize::from(*group);
        sums[index] = sums[index].wrapping_add(difference);
    }
}

/// Returns by how much a county of these `groups`, which are given by index, can be lighter while each of them still
/// weighs the `quota`. It is at most the county's `weight`.
fn slack(sums: &[u64], groups: &[u16], weight: u32, quota: u64) -> u32
    requires below { All (λ i. i < length sums.now) groups.now }
    ensures { result ≤ weight }
{
    let mut slack = weight;
    for group in groups {
        let spare = sums[usize::from(*group)].saturating_sub(quota);
        if spare == 0 {
            return 0;
        }
        if spare < u64::from(slack) {
            slack = spare as u32;
        }
    }
    slack
}

/// Halves each of the `weights`, rounding up.
fn halve(weights: &mut [u32])
    requires range { All (λ w. w ≤ 1000000) weights.old }
    ensures count { length weights.new ≡ length weights.old }
    ensures range { All (λ w. w ≤ 1000000) weights.new }
{
    for weight in weights.iter_mut() {
        *weight = weight.div_ceil(2);
    }
}

impl KeptSums {
    /// Returns these `weights` with the sums of this number of `groups`.
    ///
    /// # Errors
    ///
    /// Returns an error if memory was refused.
    pub(crate) fn new(
        alloc: Global,
        weights: Vec<u32>,
        having: &[Vec<u16>],
        groups: usize,
    ) -> Result<Self, AllocError>
        requires count { length having.now ≡ length weights.items }
        requires below { All (λ v. All (λ i. i < groups) v.items) having.now }
        requires range { All (λ w. w ≤ 1000000) weights.items }
        ensures count { IfOk result (λ k. length k.weights.items ≡ length weights.items) }
        ensures groups { IfOk result (λ k. length k.sums.items ≡ groups) }
    {
        let mut kept = KeptSums {
            weights,
            sums: vec![in alloc; 0; groups]?,
            total: 0,
        };
        kept.sum_anew(having);
        Ok(kept)
    }

    /// Makes the sums anew from the weights.
    fn sum_anew(&mut self, having: &[Vec<u16>])
        requires count { length having.now ≡ length self.old.weights.items }
        requires below { All (λ v. All (λ i. i < length self.old.sums.items) v.items) having.now }
        ensures count { length self.new.weights.items ≡ length self.old.weights.items }
        ensures groups { length self.new.sums.items ≡ length self.old.sums.items }
    {
        self.sums.fill(0);
        self.total = 0;
        for place in 0..having.len() {
            change_sums(&mut self.sums, &having[place], 0, self.weights[place]);
            self.total = self.total.saturating_add(u64::from(self.weights[place]));
        }
    }

    /// Returns the same weights and sums.
    ///
    /// # Errors
    ///
    /// Returns an error if memory was refused.
    pub(crate) fn copy(&self, alloc: Global) -> Result<Self, AllocError>
        ensures count { IfOk result (λ k. length k.weights.items ≡ length self.now.weights.items) }
        ensures groups { IfOk result (λ k. length k.sums.items ≡ length self.now.sums.items) }
    {
        Ok(KeptSums {
            weights: self.weights.to_vec(alloc)?,
            sums: self.sums.to_vec(alloc)?,
            total: self.total,
        })
    }

    /// Copies the weights and sums of `other`, which has as many places and groups, into this value.
    pub(crate) fn copy_from(&mut self, other: &KeptSums)
        requires count { length self.old.weights.items ≡ length other.now.weights.items }
        requires groups { length self.old.sums.items ≡ length other.now.sums.items }
        ensures count { length self.new.weights.items ≡ length self.old.weights.items }
        ensures groups { length self.new.sums.items ≡ length self.old.sums.items }
    {
        self.weights.copy_from_slice(&other.weights);
        self.sums.copy_from_slice(&other.sums);
        self.total = other.total;
    }

    /// Returns the index of the lightest group, of which there is at least one, and its weight. If several are
    /// lightest, it is the first of them.
    pub(crate) fn lightest(&self) -> (usize, u64)
        requires some { 0 < length self.now.sums.items }
        ensures { result.0 < length self.now.sums.items }
    {
        let mut lightest = 0;
        let mut least = u64::MAX;
        for (index, sum) in self.sums.iter().enumerate() {
            if *sum < least {
                least = *sum;
                lightest = index;
            }
        }
        (lightest, least)
    }

    /// Gives the county at `place` this `weight`.
    fn change_weight(&mut self, having: &[Vec<u16>], place: usize, weight: u32)
        requires there { place < length having.now }
        requires count { length having.now ≡ length self.old.weights.items }
        requires below { All (λ v. All (λ i. i < length self.old.sums.items) v.items) having.now }
        requires small { weight ≤ 1000000 }
        ensures count { length self.new.weights.items ≡ length self.old.weights.items }
        ensures groups { length self.new.sums.items ≡ length self.old.sums.items }
    {
        let before = self.weights[place];
        change_sums(&mut self.sums, &having[place], before, weight);
        self.total = self
            .total
            .saturating_add(u64::from(weight))
            .saturating_sub(u64::from(before));
        self.weights[place] = weight;
    }

    /// Makes each county of `group` heavier by 1 and a fifth of its weight, rounded down. No weight becomes greater
    /// than 1,000,000. Returns whether one of their weights is above 400,000 then.
    fn make_heavier<C: CountySet>(&mut self, having: &[Vec<u16>], group: &C) -> bool
        requires within { (x : ℕ) → C.test group.now x ≡ true → x < length having.now }
        requires count { length having.now ≡ length self.old.weights.items }
        requires below { All (λ v. All (λ i. i < length self.old.sums.items) v.items) having.now }
        ensures count { length self.new.weights.items ≡ length self.old.weights.items }
        ensures groups { length self.new.sums.items ≡ length self.old.sums.items }
    {
        let mut heavy = false;
        let mut from = 0;
        while let Some(place) = group.next(from) {
            let weight = self.weights[usize::from(place)];
            let more = weight.saturating_add(weight / 5 + 1).min(MOST);
            self.change_weight(having, usize::from(place), more);
            heavy = heavy || more > HEAVY;
            from = u32::from(place) + 1;
        }
        heavy
    }

    /// Makes each county of `group` heavier by 1 and a fifth of its weight. If one weighs more than 400,000 then, all
    /// weights are halved.
    pub(crate) fn raise<C: CountySet>(&mut self, having: &[Vec<u16>], group: &C)
        requires within { (x : ℕ) → C.test group.now x ≡ true → x < length having.now }
        requires count { length having.now ≡ length self.old.weights.items }
        requires below { All (λ v. All (λ i. i < length self.old.sums.items) v.items) having.now }
        ensures count { length self.new.weights.items ≡ length self.old.weights.items }
        ensures groups { length self.new.sums.items ≡ length self.old.sums.items }
    {
        if self.make_heavier(having, group) {
            halve(&mut self.weights);
            self.sum_anew(having);
        }
    }

    /// Takes from the counties in turn what no group needs to weigh the `quota`, which each group weighs before.
    pub(crate) fn lower(&mut self, having: &[Vec<u16>], quota: u64)
        requires count { length having.now ≡ length self.old.weights.items }
        requires below { All (λ v. All (λ i. i < length self.old.sums.items) v.items) having.now }
        ensures count { length self.new.weights.items ≡ length self.old.weights.items }
        ensures groups { length self.new.sums.items ≡ length self.old.sums.items }
    {
        for place in 0..having.len() {
            let weight = self.weights[place];
            let slack = slack(&self.sums, &having[place], weight, quota);
            if slack > 0 {
                self.change_weight(having, place, weight - slack);
            }
        }
    }
}
