// The counts that a serve moves, loads served and loads forwarded, and the share of loads that were forwarded.

#![tactic(auto)]

ghost use Rattle.std.specs.Prelude.{◌≡◌};
ghost use Rattle.counts.specs.Counts.{counted, share};

// Loads served, and loads forwarded. (`repr(C)`: C hands the record in and gets it back.)
#[repr(C)]
#[derive(Clone, Copy, PartialEq, Eq, Default)]
pub struct Counts {
    pub loads: u32,
    pub forwarded: u32,
}

impl Counts {
    // One more load is served. "When either stands at 4294967295 both stop."
    pub fn counted(self, forwarded: bool) -> Counts
        ensures { result ≡ counted forwarded self }
    {
        if self.loads == u32::MAX || self.forwarded == u32::MAX {
            return self;
        }
        Counts {
            loads: self.loads + 1,
            forwarded: self.forwarded + u32::from(forwarded),
        }
    }

    // Thousandths of the loads that were forwarded, to the nearest, an exact half to the even neighbour; 0 for no loads.
    pub fn share(self) -> u64
        ensures { result ≡ share self }
    {
        if self.loads == 0 {
            return 0;
        }
        let loads = u64::from(self.loads);
        let thousandths = 1000 * u64::from(self.forwarded);
        let whole = thousandths / loads;
        // twice the rest, compared with the loads: is the rest below half of them?
        let twice = 2 * (thousandths % loads);
        // No `match` on how they compare, which makes the answer of the comparison first: a share took a third longer by it.
        if twice < loads {
            return whole;
        }
        if loads < twice {
            return whole + 1;
        }
        // an exact half: the even neighbour
        whole + whole % 2
    }
}
