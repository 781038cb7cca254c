ghost use Rattle.std.specs.Prelude.{◌≡◌, ◌+◌, ◌-◌, ◌<◌, ◌≤◌, [], ◌∷◌, ◌++◌, length, IfOk, vec_len, vec_capacity, slice_set};
ghost use Rattle.ptp_base.specs.Room.{Reserved};

use crate::items::Items;
use crate::octets::NoMemory;
use std::alloc::Global;
use std::marker::Model;

/// A list with places that are reserved: contracts see its elements, and how many more it takes
/// without memory.
#[derive(Drop)]
pub struct Room<T> {
    items: Vec<T>,
    spare: usize,
}

impl<T> Model for Room<T> {
    ghost use Rattle.std.specs.Prelude.{◌+◌, ◌≤◌, vec_len, vec_capacity};
    ghost use Rattle.ptp_base.specs.Room.{Reserved, reserved_code};

    ghost Value = { Reserved T };

    ghost coded = { reserved_code T.code };

    ghost view = { λ r. record { items = r.items.items; spare = r.spare } };

    ghost invariant = { λ r. vec_len r.items + r.spare ≤ vec_capacity r.items };
}

impl<T: Drop> Room<T> {
    /// An empty list with so many places.
    pub fn with(alloc: Global, places: usize) -> Result<Room<T>, NoMemory>
        ensures { IfOk result (λ room. room ≡ record { items = []; spare = places }) }
    {
        Ok(Room {
            items: Vec::with_capacity(alloc, places)?,
            spare: places,
        })
    }

    /// Adds an element at the end, in a reserved place.
    pub fn push(&mut self, item: T)
        requires { 0 < self.old.spare }
        ensures { self.new
            ≡ record { items = self.old.items ++ item ∷ []; spare = self.old.spare - 1 } }
    {
        self.items.push_reserved(item);
        self.spare -= 1;
    }

    /// Puts the element in the place of another.
    pub fn set(&mut self, at: usize, item: T)
        requires { at < length self.old.items }
        ensures { self.new ≡ record self.old { items = slice_set self.old.items at item } }
    {
        self.items[at] = item;
    }

    /// Empties the list. Its places are then all reserved.
    pub fn clear(&mut self)
        ensures items { self.new.items ≡ [] }
        ensures spare { length self.old.items + self.old.spare ≤ self.new.spare }
    {
        let places = self.items.len() + self.spare;
        self.items.clear();
        self.spare = places;
    }

    /// Lends the elements.
    pub fn items(&self) -> &[T]
        ensures { result.now ≡ self.now.items }
    {
        self.items.as_slice()
    }

    /// The list alone. Does not allocate.
    pub fn done(self) -> Items<T>
        ensures { result ≡ self.items }
    {
        let Room { items, spare: _ } = self;
        Items::from_vec(items)
    }
}

impl Room<u8> {
    /// Adds octets at the end, in reserved places.
    pub fn append(&mut self, piece: &[u8])
        requires { length piece.now ≤ self.old.spare }
        ensures { self.new
            ≡ record {
              items = self.old.items ++ piece.now;
              spare = self.old.spare - length piece.now;
            } }
    {
        for octet in piece {
            self.push(*octet);
        }
    }
}
