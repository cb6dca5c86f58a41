// Which pages are free, how many, and how many of them are claimed. It is kept beside the space map, and changes no
// page.
ghost use Rattle.std.specs.Prelude.{◌≡◌, ◌==◌, map, ◌≤◌, ◌<◌, ◌+◌, ◌-◌, length, IfOk, IfErr, OnOk, OnErr};
ghost use Rattle.mt_base.specs.declared.limits.TheConstants.{MAX_PAGES, PAGE_BYTES};
ghost use Rattle.mt_base.specs.declared.refusal.Refusal.{Refusal};
ghost use Rattle.mt_space.specs.Rooms.{free_in, reserved_of, free_of, mapped};

use crate::pages::FREE;
use mt_base::Refusal;
use std::alloc::{AllocError, Global};
use std::marker::Model;

/// The free pages of a device, and how many of them are reserved. Contracts see of each page whether it is
/// free, and the number of those reserved, which is never more than the free ones.
#[derive(Drop)]
pub struct Space {
    pages: Vec<bool>,
    free: u16,
    reserved: u16,
}

impl Model for Space {
    ghost use Rattle.mt_space.specs.Rooms.{Room, IsKept};

    ghost Value = { Room };

    ghost view = { λ s. (s.pages.items, s.reserved) };

    ghost invariant = { λ s. IsKept s.pages.items s.free s.reserved };
}

impl Space {
    /// The space of a map, a byte for each page: those of kind 0 are free. None is reserved. The only error
    /// is want of memory.
    pub fn of(alloc: Global, map: &[u8], pages: u16) -> Result<Space, AllocError>
        requires map { length map.now ≡ PAGE_BYTES }
        requires few { pages ≤ MAX_PAGES }
        ensures free { IfOk result (λ space. space.0 ≡ mapped map.now pages) }
        ensures none { IfOk result (λ space. reserved_of space ≡ 0) }
    {
        let pages = freedom(alloc, &map[..usize::from(pages)])?;
        let free = count_free(pages.as_slice());
        Ok(Space {
            pages,
            free,
            reserved: 0,
        })
    }

    /// Reserves so many of the free pages. Refused with 10 if and only if fewer are free and not reserved;
    /// the space is then as before. It takes no memory.
    pub fn claim(&mut self, pages: u16) -> Result<(), Refusal>
        ensures free { self.new.0 ≡ self.old.0 }
        ensures claimed { OnOk result (reserved_of self.new ≡ reserved_of self.old + pages) }
        ensures fits { OnOk result (reserved_of self.old + pages ≤ free_of self.old) }
        ensures why { IfErr result (λ why. why ≡ Refusal.NoRoom) }
        ensures cause { OnErr result (free_of self.old < reserved_of self.old + pages) }
        ensures err { OnErr result (self.new ≡ self.old) }
    {
        if self.free - self.reserved < pages {
            return Err(Refusal::NoRoom);
        }
        self.reserved += pages;
        Ok(())
    }

    /// Gives so many reservations back.
    pub fn give_back(&mut self, pages: u16)
        requires { pages ≤ reserved_of self.old }
        ensures free { self.new.0 ≡ self.old.0 }
        ensures given { reserved_of self.new ≡ reserved_of self.old - pages }
    {
        self.reserved -= pages;
    }

    /// Makes the pages free that are free by a map, a byte for each page, and no other. What is reserved stays
    /// reserved: so many pages are free by the map. It takes no memory.
    pub fn follow(&mut self, map: &[u8])
        requires map { length map.now ≡ PAGE_BYTES }
        requires room { reserved_of self.old ≤ free_in (mapped map.now (length self.old.0)) }
        ensures free { self.new.0 ≡ mapped map.now (length self.old.0) }
        ensures reserved { reserved_of self.new ≡ reserved_of self.old }
    {
        let kinds = &map[..self.pages.len()];
        note_free(self.pages.as_mut_slice(), kinds);
        self.free = count_free(self.pages.as_slice());
    }

    /// How many pages are free, reserved or not.
    pub fn free(&self) -> u16
        ensures { result ≡ free_of self.now }
    {
        self.free // the reserved ones are among them
    }

    /// How many of the free pages are reserved.
    pub fn reserved(&self) -> u16
        ensures reserved { result ≡ reserved_of self.now }
        ensures room { result ≤ free_of self.now }
    {
        self.reserved // never more than the free ones
    }
}

// Of each page whether its kind is that of a free one.
fn freedom(alloc: Global, kinds: &[u8]) -> Result<Vec<bool>, AllocError>
    ensures { IfOk result (λ pages. pages.items ≡ map (λ kind. kind == 0) kinds.now) }
{
    let mut pages = Vec::with_capacity(alloc, kinds.len())?;
    for kind in kinds {
        pages.push(*kind == FREE)?;
    }
    Ok(pages)
}

// Notes of each page whether its kind is that of a free one.
fn note_free(pages: &mut [bool], kinds: &[u8])
    requires { length kinds.now ≡ length pages.old }
    ensures { pages.new ≡ map (λ kind. kind == 0) kinds.now }
{
    for page in 0..pages.len() {
        pages[page] = kinds[page] == FREE;
    }
}

// How many pages are free.
fn count_free(pages: &[bool]) -> u16
    requires { length pages.now ≤ MAX_PAGES }
    ensures { result ≡ free_in pages.now }
{
    let mut free = 0;
    for page in pages {
        if *page {
            free += 1;
        }
    }
    free
}
