//! Which lines of a script are drawn.

/// The lines of a script whose events are drawn: from this number to that one, both included. The first line has number 1.
#[derive(Clone, Copy)]
pub struct Lines {
    /// The first of them.
    pub from: u64,
    /// The last of them.
    pub to: u64,
}

impl Lines {
    ghost use Rattle.std.specs.Prelude.{◌≡◌};
    ghost use Rattle.kp_draw.specs.Pictured.{is_among};

    /// All lines.
    pub const ALL: Lines = Lines {
        from: 0,
        to: u64::MAX,
    };

    /// Whether the line of this number is among them. O(1).
    pub fn holds(&self, number: u64) -> bool
        ensures { result ≡ is_among self.now number }
    {
        self.from <= number && number <= self.to
    }
}
