//! The voter whose payments are taken.

ghost use Rattle.std.specs.Prelude.{◌≡◌, ◌≤◌, ◌+◌, ◌^◌, max};

/// The voter at hand, as far as its payments were taken.
#[derive(Clone, Copy)]
pub(crate) struct AtHand {
    /// The last voter whose ballot was gone through for its rows: this one, or one before.
    pub opened: u32,
    /// What it pays for all projects together.
    pub spent: u128,
    /// The most that it pays for one.
    pub largest: u128,
}

impl AtHand {
    /// Adds a payment.
    pub fn pay(&mut self, grains: u128)
        requires spent { (self.old).spent ≤ 10 ^ 32 }
        requires grains { grains ≤ 10 ^ 32 }
        ensures opened { (self.new).opened ≡ (self.old).opened }
        ensures spent { (self.new).spent ≡ (self.old).spent + grains }
        ensures largest { (self.new).largest ≡ max (self.old).largest grains }
    {
        self.spent += grains;
        self.largest = self.largest.max(grains);
    }
}
