//! Where a search stands among the parts of a list.
ghost use Rattle.std.specs.Prelude.{◌≡◌, ◌<◌, true};
ghost use Rattle.chunk_list.specs.Middle.{IsShorter, IsMiddle};

/// The parts that a search still looks through, and the one that it looked into last. It only saves
/// time: what a list answers does not depend on it.
#[derive(Clone, Copy, Default, Drop)]
pub struct Near {
    low: usize,
    high: usize,
    at: usize,
    begins: bool,
}

impl Near {
    /// What lies in these parts.
    pub(crate) fn new(low: usize, high: usize) -> Near {
        Near {
            low,
            high,
            at: low,
            begins: false,
        }
    }

    /// The first and the last part that is left.
    pub(crate) fn parts(self) -> (usize, usize) {
        (self.low, self.high)
    }

    /// The part that was looked into last.
    pub(crate) fn part(self) -> usize {
        self.at
    }

    /// Looks into a part, at its first place or at another.
    pub(crate) fn look(&mut self, at: usize, begins: bool) {
        self.at = at;
        self.begins = begins;
    }

    /// What is left lies after the place last looked at.
    pub fn go_after(&mut self) {
        self.low = self.at;
    }

    /// What is left lies before the place last looked at.
    pub fn go_before(&mut self) {
        self.high = if self.begins {
            self.at.saturating_sub(1)
        } else {
            self.at
        };
    }
}

/// Whether a number has fewer binary digits than another.
fn is_shorter(n: usize, whole: usize) -> bool
    requires some { 0 < whole }
    ensures { result ≡ true → IsShorter n whole }
{
    n == 0 || n.ilog2() < whole.ilog2()
}

/// Whether a place parts the places from one up to another so that both sides are shorter.
pub(crate) fn is_middle(from: usize, place: usize, to: usize) -> bool
    ensures { result ≡ true → IsMiddle from to place }
{
    from <= place
        && place < to
        && is_shorter(place - from, to - from)
        && is_shorter(to - place - 1, to - from)
}

/// The place in the middle.
pub(crate) fn exact_middle(from: usize, to: usize) -> usize
    requires { from < to }
    ensures { IsMiddle from to result }
{
    from + (to - from) / 2
}
