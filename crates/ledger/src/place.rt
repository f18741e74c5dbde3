// The place for a range in a ledger, by halving.
ghost use Rattle.std.specs.Prelude.{◌≡◌, ◌+◌, ◌-◌, ◌≤◌, ◌<◌};
ghost use Rattle.ledger.specs.Ledger.{capacity};
ghost use Rattle.ledger.specs.Place.{ends_below, looked, FindResult};

// How far a search has come: the place lies from low up to high, the pairs between are open, and so many pairs were looked at.
#[derive(Clone, Copy, Debug, PartialEq, Eq)]
pub struct Search {
    pub low: usize,
    pub high: usize,
    pub looks: usize,
}

// What a search answers: the place, counted in pairs, and how many pairs it looked at.
#[derive(Clone, Copy, Debug, PartialEq, Eq)]
pub struct Place {
    pub at: usize,
    pub looks: usize,
}

// Whether the pair with the number i is used and ends below start.
// Stays: a pair by its number, as `FindResult` counts looks at numbered pairs; `first_pair` is for walks from the front.
#[tactic(auto, unfolding(crate::specs::Place::ends_below))]
fn ends_below(ledger: &[u64], i: usize, start: u64) -> bool
    requires { i < capacity ledger.now }
    ensures { result ≡ ends_below start ledger.now i }
{
    let end = ledger[2 * i + 1];
    0 < end && end < start
}

impl Search {
    // One look, at the middle one of the open pairs.
    #[tactic(auto, unfolding(crate::specs::Place::looked))]
    fn look(self, ledger: &[u64], start: u64) -> Search
        requires { (self.low < self.high) × (self.high ≤ capacity ledger.now) × (self.looks + (self.high - self.low) ≤ capacity ledger.now) }
        ensures { result ≡ looked start ledger.now self }
    {
        let looks = self.looks + 1;
        let middle = self.low + (self.high - self.low) / 2;
        if ends_below(ledger, middle, start) {
            Search {
                low: middle + 1,
                looks,
                ..self
            }
        } else {
            Search {
                high: middle,
                looks,
                ..self
            }
        }
    }
}

// The place for a range that begins at start: in a ledger that obeys the rule, the number of used pairs that end below start. In any other
// list it is where the looks lead, which no paper gives a meaning.
// Stays: partition_point doesn't say how many pairs it looks at, and LookUp `thirteen` speaks of these.
pub fn find(ledger: &[u64], start: u64) -> Place
    ensures { FindResult start ledger.now result }
{
    let mut state = Search {
        low: 0,
        high: ledger.len() / 2,
        looks: 0,
    };
    while state.low < state.high {
        state = state.look(ledger, start);
    }
    Place {
        at: state.low,
        looks: state.looks,
    }
}
