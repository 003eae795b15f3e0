// How many calls were granted and how many refused, and where the first refused ones stand.
ghost use Rattle.std.specs.Prelude.{◌≡◌};
ghost use Rattle.told.specs.Counts.{counted};

/// The most lines that are told.
pub const MOST_LINES: usize = 10;

/// How many calls were granted and how many refused, and at which lines the first refused ones stand.
#[derive(Clone, Copy, Debug, Default)]
pub struct Summary {
    pub granted: usize,
    pub refused: usize,
    pub lines: [usize; MOST_LINES],
}

impl Summary {
    /// Counts the call of a line.
    pub fn count(&mut self, line: usize, is_granted: bool)
        ensures { self.new ≡ counted self.old line is_granted }
    {
        if is_granted {
            self.granted = self.granted.saturating_add(1);
            return;
        }
        if self.refused < MOST_LINES {
            self.lines[self.refused] = line;
        }
        self.refused = self.refused.saturating_add(1);
    }
}
