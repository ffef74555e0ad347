//! Values by hash, each in one of a few buckets that follow from its hash. So a value is found again by
//! few comparisons, however a script chooses its texts. What was read of a script is kept so.

use std::alloc::{AllocError, Global};

/// In how many buckets next to each other a value may be.
const BUCKETS_OF_A_VALUE: usize = 4;

/// What a bucket holds in which no value is. No value has this index.
const FREE: u32 = u32::MAX;

/// A value with its hash.
#[derive(Drop)]
struct Hashed<T> {
    hash_value: u64,
    value: T,
}

/// Values by hash. Two values with the same hash aren't kept both. The number of buckets is zero or a
/// power of two, and at least twice that of the values.
#[derive(Drop)]
pub(crate) struct Buckets<T> {
    alloc: Global,
    values: Vec<Hashed<T>>,
    /// The index of a value, or `FREE`. An index takes less memory than a value, so that a bucket is
    /// mostly found in a fast cache of the processor.
    buckets: Vec<u32>,
}

impl<T: Drop> Buckets<T> {
    /// Returns no values.
    pub(crate) fn new(alloc: Global) -> Buckets<T> {
        Buckets {
            alloc,
            values: Vec::new(alloc),
            buckets: Vec::new(alloc),
        }
    }

    /// Returns the value with a hash, if it is kept.
    pub(crate) fn get(&self, hash_value: u64) -> Option<&T> {
        for &index in self.near(hash_value) {
            match self.values.get(index as usize) {
                Some(found) if found.hash_value == hash_value => return Some(&found.value),
                _ => {}
            }
        }
        None
    }

    /// Keeps a value with its hash. A value with the same hash is forgotten, and if all buckets of the
    /// hash are taken, the value in the first one.
    pub(crate) fn insert(&mut self, hash_value: u64, value: T) -> Result<(), AllocError> {
        if self.values.len() >= self.buckets.len() / 2 {
            self.grow()?;
        }
        let bucket = self.bucket_for(hash_value);
        let index = self.index_in(bucket);
        let hashed = Hashed { hash_value, value };
        if let Some(taken) = self.values.get_mut(index as usize) {
            *taken = hashed;
            return Ok(());
        }
        let next = self.values.len();
        self.values.push(hashed)?;
        self.put(next);
        Ok(())
    }

    /// Doubles the number of buckets.
    fn grow(&mut self) -> Result<(), AllocError> {
        let doubled = self.buckets.len().saturating_mul(2).max(64);
        let mut buckets = Vec::new(self.alloc);
        buckets.resize(doubled, FREE)?;
        self.buckets = buckets;
        for index in 0..self.values.len() {
            self.put(index);
        }
        Ok(())
    }

    /// Puts the index of a value into a bucket of its hash.
    fn put(&mut self, index: usize) {
        let Some(hashed) = self.values.get(index) else {
            return;
        };
        let bucket = self.bucket_for(hashed.hash_value);
        if let (Some(held), Ok(index)) = (self.buckets.get_mut(bucket), u32::try_from(index)) {
            *held = index;
        }
    }

    /// Returns what a bucket holds.
    fn index_in(&self, bucket: usize) -> u32 {
        self.buckets.get(bucket).copied().unwrap_or(FREE)
    }

    /// Returns the bucket for a value with a hash: that of the value with the same hash, or else the
    /// first free one, or else the first.
    fn bucket_for(&self, hash_value: u64) -> usize {
        let near = self.near(hash_value);
        let same = near
            .iter()
            .position(|index| self.has_hash(*index, hash_value));
        let free = near.iter().position(|index| *index == FREE);
        let position = same.or(free).unwrap_or(0);
        self.start(hash_value).saturating_add(position)
    }

    /// Returns whether the value with an index has a hash.
    fn has_hash(&self, index: u32, hash_value: u64) -> bool {
        match self.values.get(index as usize) {
            Some(found) => found.hash_value == hash_value,
            None => false,
        }
    }

    /// Returns the buckets in which a value with a hash may be.
    fn near(&self, hash_value: u64) -> &[u32] {
        let start = self.start(hash_value);
        let end = start
            .saturating_add(BUCKETS_OF_A_VALUE)
            .min(self.buckets.len());
        if start < end {
            &self.buckets[start..end]
        } else {
            &[]
        }
    }

    /// Returns the first bucket of a hash.
    fn start(&self, hash_value: u64) -> usize {
        hash_value as usize & self.buckets.len().wrapping_sub(1)
    }
}
