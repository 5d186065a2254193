// The place table: four numbers a row, big-endian, in bytes that the caller lends, with its index.
ghost use Rattle.places.specs.Index.{Ready, Tabled};
ghost use Rattle.std.specs.Prelude.{◌≡◌, ◌+◌, ◌*◌, ◌≤◌, length, eqb};
ghost use Rattle.numbers.specs.Number.{number_at};
ghost use Rattle.places.specs.Table.{Narrow, ShowsIn, place_in, put_place, put_row};
ghost use Rattle.model.specs.Places.{place_at, next_of, kind_of, same_place};

use crate::index::{Index, hash, linked};
use machine::SourcePc;
use model::Place;

// The numbers of a place, as they stand in a row: address, next and kind.
#[inline(always)]
#[tactic(auto, unfolding(model::specs::Places::place_at))]
pub fn address_of(x: Place) -> u32
    ensures { result ≡ place_at x }
{
    match x {
        Place::Pair(p, _) | Place::Held(p) => p,
    }
}

#[inline(always)]
pub(crate) fn next_of(x: Place) -> u32
    ensures { result ≡ next_of x }
{
    match x {
        Place::Pair(_, n) => n,
        Place::Held(_) => 0,
    }
}

#[inline(always)]
#[tactic(auto, unfolding(model::specs::Places::kind_of))]
pub fn kind_of(x: Place) -> u32
    ensures { result ≡ kind_of x }
{
    match x {
        Place::Pair(p, n) if n == numbers::add(p, 4) => 0,
        Place::Pair(_, _) => 1,
        Place::Held(_) => 2,
    }
}

// The address of row i.
#[inline(always)]
pub fn address(places: &[u8], i: usize) -> SourcePc
    requires { 16 * i + 16 ≤ length places.now }
    ensures { result.0 ≡ number_at places.now (16 * i) }
{
    SourcePc(numbers::read_number(places, 16 * i))
}

#[inline(always)]
pub fn next(places: &[u8], i: usize) -> SourcePc
    requires { 16 * i + 16 ≤ length places.now }
    ensures { result.0 ≡ number_at places.now (16 * i + 4) }
{
    SourcePc(numbers::read_number(places, 16 * i + 4))
}

#[inline(always)]
pub fn is_held(places: &[u8], i: usize) -> bool
    requires { 16 * i + 16 ≤ length places.now }
    ensures { result ≡ eqb (number_at places.now (16 * i + 8)) 2 }
{
    numbers::read_number(places, 16 * i + 8) == 2
}

// Whether row i is a place: its numbers are compared, so that no row is made a place.
#[inline(always)]
#[tactic(auto, using(crate::proofs::Rows::other_address, crate::proofs::Rows::other_next, crate::proofs::Rows::by_kind))]
pub fn is_place(places: &[u8], i: usize, x: Place) -> bool
    requires { (16 * i + 16 ≤ length places.now) × ShowsIn places.now i }
    ensures { result ≡ same_place (place_in places.now i) x }
{
    numbers::read_number(places, 16 * i) == address_of(x)
        && numbers::read_number(places, 16 * i + 4) == next_of(x)
        && numbers::read_number(places, 16 * i + 8) == kind_of(x)
}

// Puts the three numbers of a place in row i. Its first record stays as it is.
#[inline(always)]
#[tactic(auto, unfolding(crate::specs::Table::put_place))]
pub fn write_place(places: &mut [u8], i: usize, p: u32, n: u32, kind: u32)
    requires { 16 * i + 16 ≤ length places.old }
    ensures { places.new ≡ put_place places.old i p n kind }
{
    numbers::write_number(places, 16 * i, p);
    numbers::write_number(places, 16 * i + 4, n);
    numbers::write_number(places, 16 * i + 8, kind);
}

// Makes row i a place.
#[inline(always)]
#[tactic(auto, unfolding(crate::specs::Table::put_row))]
fn write_row(places: &mut [u8], i: usize, x: Place)
    requires { 16 * i + 16 ≤ length places.old }
    ensures put { places.new ≡ put_row places.old i x }
    ensures narrow { Narrow x }
{
    write_place(places, i, address_of(x), next_of(x), kind_of(x));
}

// A place table that is only read: so many rows, and the index of their places.
#[derive(Clone, Copy)]
pub struct Rows<'a> {
    pub places: &'a [u8],
    pub heads: &'a [u16; 8192],
    pub links: &'a [u16; 8192],
    pub count: usize,
    ghost tabled: { Tabled places.now count heads.now links.now },
}

impl Rows<'_> {
    ghost use Rattle.std.specs.Prelude.{◌<◌, get_or};
    ghost use Rattle.places.specs.Index.{hash, link_of};
    ghost use Rattle.places.specs.Table.{places_in, found};

    // The newest place with the hash of a place.
    #[inline(always)]
    fn newest(&self, x: Place) -> Option<usize>
        ensures { link_of result ≡ get_or self.now.heads.now (hash x) 0 }
    {
        linked(self.heads[hash(x)])
    }

    // The place before place i with its hash.
    #[inline(always)]
    fn older(&self, i: usize) -> Option<usize>
        requires { i < 8192 }
        ensures { link_of result ≡ get_or self.now.links.now i 0 }
    {
        linked(self.links[i])
    }

    // The number of a place, if it is present. No two are the same, so the first met is it.
    #[inline(always)]
    pub fn find(&self, x: Place) -> Option<usize>
        ensures { result ≡ found x (places_in self.now.places.now self.now.count) }
    {
        let mut next = self.newest(x);
        while let Some(i) = next {
            if is_place(self.places, i, x) {
                return Some(i);
            }
            next = self.older(i);
        }
        None
    }

    // The first record of row i.
    #[inline(always)]
    pub fn first_record(&self, i: usize) -> u32
        requires { i < self.now.count }
        ensures { result ≡ number_at self.now.places.now (16 * i + 12) }
    {
        numbers::read_number(self.places, 16 * i + 12)
    }
}

// A place table with room for so many places.
#[derive(Drop)]
pub struct Table<'a> {
    pub places: &'a mut [u8],
    pub index: &'a mut Index,
    pub room: usize,
    ghost ready: { Ready room places.now index.now.count index.now.heads index.now.links },
}

impl Table<'_> {
    ghost use Rattle.std.specs.Prelude.{◌<◌, [], ◌∷◌, ◌++◌, false, eqb};
    ghost use Rattle.numbers.specs.Number.{number_at};
    ghost use Rattle.model.specs.Places.{same_place, member};
    ghost use Rattle.places.specs.Table.{place_in, found};
    ghost use Rattle.places.specs.Lent.{listed, Kept};

    // How many places there are.
    #[inline(always)]
    pub fn len(&self) -> usize
        ensures { result ≡ self.now.index.now.count }
    {
        self.index.count
    }

    // The address of row i.
    #[inline(always)]
    pub fn address(&self, i: usize) -> SourcePc
        requires { i < self.now.index.now.count }
        ensures { result.0 ≡ number_at self.now.places.now (16 * i) }
    {
        address(self.places, i)
    }

    #[inline(always)]
    pub fn next(&self, i: usize) -> SourcePc
        requires { i < self.now.index.now.count }
        ensures { result.0 ≡ number_at self.now.places.now (16 * i + 4) }
    {
        next(self.places, i)
    }

    #[inline(always)]
    pub fn is_held(&self, i: usize) -> bool
        requires { i < self.now.index.now.count }
        ensures { result ≡ eqb (number_at self.now.places.now (16 * i + 8)) 2 }
    {
        is_held(self.places, i)
    }

    // The table as it is read.
    #[inline(always)]
    pub fn rows(&self) -> Rows<'_>
        ensures places { result.places.now ≡ self.now.places.now }
        ensures count { result.count ≡ self.now.index.now.count }
    {
        Rows {
            places: self.places,
            heads: &self.index.heads,
            links: &self.index.links,
            count: self.len(),
        }
    }

    // The number of a place, if it is present.
    #[inline(always)]
    #[tactic(auto, unfolding(crate::specs::Lent::listed))]
    pub fn find(&self, x: Place) -> Option<usize>
        ensures { result ≡ found x (listed self.now) }
    {
        self.rows().find(x)
    }

    // A place that is not present takes the next number.
    #[inline(always)]
    pub fn push(&mut self, x: Place)
        requires { (self.old.index.now.count < self.old.room) × (member (listed self.old) x ≡ false) }
        ensures places { listed self.new ≡ listed self.old ++ (x ∷ []) }
        ensures kept { Kept self.old self.new }
    {
        let i = self.len();
        write_row(self.places, i, x);
        self.index.enter(x);
    }
}
