ghost use Rattle.std.specs.Prelude.{◌≡◌, length, nat_le, replicate, slice_set};
ghost use Rattle.lent.specs.Lists.{counted, blanked_from};

// Lent places, of which the first `used` are filled. `used` counts on where there is no more room.
#[derive(Drop)]
pub struct Lent<'m, T> {
    pub items: &'m mut [T],
    pub used: usize,
}

// Blanks each place. Not `fill`: that clones, and asks generic callers that a clone cannot fail.
fn blank_all<T: Copy>(items: &mut [T], blank: T)
    ensures { items.new ≡ replicate (length items.old) blank }
{
    for item in items.iter_mut() {
        *item = blank;
    }
}

// Puts an item at a place, if there is such a place, and answers the next place. The last number has no next.
pub fn put<T: Copy>(items: &mut [T], at: usize, item: T) -> usize
    ensures items { items.new ≡ slice_set items.old at item }
    ensures value { result ≡ counted at }
{
    if at < items.len() {
        items[at] = item;
    }
    at.saturating_add(1)
}

// Blanks the places from one on.
pub fn blank_from<T: Copy>(items: &mut [T], from: usize, blank: T)
    ensures { items.new ≡ blanked_from blank from items.old }
{
    if from < items.len() {
        blank_all(&mut items[from..], blank);
    }
}

impl<T: Copy> Lent<'_, T> {
    // Puts an item behind what is used, if there is room.
    pub fn push(&mut self, item: T)
        ensures items { self.new.items.now ≡ slice_set self.old.items.now self.old.used item }
        ensures used { self.new.used ≡ counted self.old.used }
        ensures same { self.new.items.ghost_name ≡ self.old.items.ghost_name }
    {
        self.used = put(self.items, self.used, item);
    }

    // Whether there was room for all that was put.
    pub fn fits(&self) -> bool
        ensures { result ≡ nat_le self.now.used (length self.now.items.now) }
    {
        self.used <= self.items.len()
    }

    // Blanks the places behind what is used.
    pub fn tidy(&mut self, blank: T)
        ensures items { self.new.items.now ≡ blanked_from blank self.old.used self.old.items.now }
        ensures used { self.new.used ≡ self.old.used }
        ensures same { self.new.items.ghost_name ≡ self.old.items.ghost_name }
    {
        blank_from(self.items, self.used, blank);
    }

    // Uses none of the places, and blanks them all.
    pub fn clear(&mut self, blank: T)
        ensures items { self.new.items.now ≡ replicate (length self.old.items.now) blank }
        ensures used { self.new.used ≡ 0 }
        ensures same { self.new.items.ghost_name ≡ self.old.items.ghost_name }
    {
        self.used = 0;
        blank_all(self.items, blank);
    }
}
