ghost use Rattle.std.specs.Prelude.{◌≡◌, Bool};
ghost use Rattle.dn_pages.specs.Pages.{spot_of};

/// A mark in lists whose items stand in order: which items are below it.
pub trait Mark<T> {
    /// Whether an item is below the mark.
    ghost below: { Self → T → Bool };

    /// Whether an item is below the mark.
    fn is_above(&self, item: &T) -> bool
        ensures { result ≡ below self.now item.now };
}

/// A place in rows of pages: that of an item, by its row, its page there and its place in the page, or the place behind a
/// page's last item.
#[derive(Clone, Copy)]
pub struct Place {
    pub row: usize,
    pub page: usize,
    pub at: usize,
}

/// A place in the pages of one row.
#[derive(Clone, Copy)]
pub struct Spot {
    pub page: usize,
    pub at: usize,
}

impl Place {
    // The place in its row.
    #[tactic(auto, unfolding(crate::specs::Pages::spot_of))]
    pub(crate) fn spot(self) -> Spot
        ensures { result ≡ spot_of self }
    {
        let Place { page, at, .. } = self;
        Spot { page, at }
    }
}
