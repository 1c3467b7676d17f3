// The ring is read and written at its two ends only.
ghost use Rattle.std.specs.Prelude.{◌≡◌, ◌-◌, ◌≤◌, [], ◌++◌, length, drop, replicate, nat_le, slice_get, IfSome};
ghost use Rattle.connection.specs.Owners.{owner_by, owner_of, push_answer, pushed};

use super::{Owner, Owners};

impl Owner {
    // The owner of a client's request of this number and method; a method of more than 16 letters is none.
    pub fn new(client: usize, number: u64, method: &[u8]) -> Option<Owner>
        ensures is { owner_by client number method.now result }
        ensures held { IfSome result (λ o. (o.letters ≡ method.now ++ replicate (16 - length method.now) 0) × (o.method_len ≡ length method.now)) }
    {
        let method_len = method.len();
        if method_len > 16 {
            return None;
        }
        let mut letters = [0; 16];
        letters[0..method_len].copy_from_slice(method);
        Some(Owner {
            client,
            number,
            letters,
            method_len,
        })
    }

    // The method of the request: no letter behind the sixteenth, whatever length is held.
    pub fn method(&self) -> &[u8]
        ensures is { result.now ≡ (owner_of self.now).method }
        ensures within { length result.now ≤ 16 }
    {
        let n = self.method_len.min(16);
        &self.letters[0..n]
    }
}

impl Owners {
    // Nobody waits.
    pub fn new() -> Owners
        ensures { result ≡ [] }
    {
        let nobody = Owner {
            client: 0,
            number: 0,
            letters: [0; 16],
            method_len: 0,
        };
        Owners {
            places: [nobody; 64],
            first: 0,
            count: 0,
        }
    }

    // Whether as many wait as may.
    pub fn is_full(&self) -> bool
        ensures is { result ≡ nat_le 64 (length self.now) }
        ensures within { length self.now ≤ 64 }
    {
        self.count == 64
    }

    // One more waits behind the others, where fewer than 64 do; else the owner is given back.
    pub fn push(&mut self, owner: Owner) -> Result<(), Owner>
        ensures told { result ≡ push_answer self.old owner }
        ensures after { self.new ≡ pushed self.old owner }
    {
        if self.count == 64 {
            return Err(owner);
        }
        let at = (self.first + self.count) % 64;
        self.places[at] = owner;
        self.count += 1;
        Ok(())
    }

    // The first that waits.
    pub fn first(&self) -> Option<Owner>
        ensures { result ≡ slice_get self.now 0 }
    {
        if self.count == 0 {
            return None;
        }
        Some(self.places[self.first])
    }

    // The first leaves.
    pub fn pop(&mut self) -> Option<Owner>
        ensures value { result ≡ slice_get self.old 0 }
        ensures after { self.new ≡ drop 1 self.old }
    {
        if self.count == 0 {
            return None;
        }
        let owner = self.places[self.first];
        self.first = (self.first + 1) % 64;
        self.count -= 1;
        Some(owner)
    }
}
