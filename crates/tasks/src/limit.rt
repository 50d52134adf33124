// The limit of simplifying, a number of its own kind.
ghost use Rattle.std.specs.Prelude.{◌≡◌, ◌-◌, eqb};
ghost use Rattle.tasks.specs.Tasks.{is_allowed};

// Never to be confused with numbers or sizes of nodes.
#[derive(Clone, Copy)]
pub struct Limit(pub u64);

impl Limit {
    // 1 less; "subtraction stops at 0".
    pub fn lowered(self) -> Limit
        ensures { result.0 ≡ self.0 - 1 }
    {
        Limit(self.0.saturating_sub(1))
    }

    pub fn is_spent(self) -> bool
        ensures { result ≡ eqb self.0 0 }
    {
        self.0 == 0
    }

    // "5 BAD_LIMIT: limit above 10".
    pub fn is_allowed(self) -> bool
        ensures { result ≡ is_allowed self.0 }
    {
        self.0 <= 10
    }
}
