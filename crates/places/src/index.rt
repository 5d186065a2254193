// The index of a place table: places with one hash form a chain, from the newest to the oldest.
ghost use Rattle.std.specs.Prelude.{◌≡◌, ◌+◌, ◌<◌, get_or, set, replicate};
ghost use Rattle.places.specs.Index.{hash, link_of};

use crate::table::{address_of, next_of};
use model::Place;

// How many places there are, the newest of each hash, and the one before each with its hash.
#[derive(Drop)]
pub struct Index {
    pub count: usize,
    pub heads: [u16; 8192],
    pub links: [u16; 8192],
}

#[inline(always)]
#[tactic(auto, unfolding(crate::specs::Index::hash))]
pub(crate) fn hash(x: Place) -> usize
    ensures { result ≡ hash x }
{
    ((address_of(x) / 4 % 65536 + next_of(x) / 4 % 65536 * 37) % 8192) as usize
}

// The place that stands in a chain. It is a number with 0 for none, since an `Option<u16>` takes twice the memory, of which a translation has
// 34 KiB (include/pijorrel.h).
#[inline(always)]
#[tactic(auto, unfolding(crate::specs::Index::link_of))]
pub(crate) fn linked(n: u16) -> Option<usize>
    ensures { link_of result ≡ n }
{
    match n {
        0 => None,
        _ => Some(n as usize - 1),
    }
}

impl Index {
    // The index of no place.
    #[inline(always)]
    pub fn new() -> Index
        ensures count { result.count ≡ 0 }
        ensures heads { result.heads ≡ replicate 8192 0 }
        ensures links { result.links ≡ replicate 8192 0 }
    {
        Index {
            count: 0,
            heads: [0; 8192],
            links: [0; 8192],
        }
    }

    // The place that comes next goes to the front of its chain.
    #[inline(always)]
    pub fn enter(&mut self, x: Place)
        requires { self.old.count < 8192 }
        ensures count { self.new.count ≡ self.old.count + 1 }
        ensures heads { self.new.heads ≡ set self.old.heads (hash x) (self.old.count + 1) }
        ensures links { self.new.links ≡ set self.old.links self.old.count (get_or self.old.heads (hash x) 0) }
    {
        let h = hash(x);
        self.links[self.count] = self.heads[h];
        self.count += 1;
        self.heads[h] = self.count as u16;
    }
}
