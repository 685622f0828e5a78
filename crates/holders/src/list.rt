// The lines and branches of a part that fill its staff, as a list.
ghost use Rattle.std.specs.Prelude.{◌≡◌, ◌≤◌, length};

// A line or a branch of a part: its column before the record, its voice (4 for none), and the part's header column; columns from 1.
// Stays: the C interface: an entry's voice is 4 for the branch that finds none, as the definition of the list says it.
#[derive(Clone, Copy, Debug, PartialEq, Eq)]
pub struct Holder {
    pub column: usize,
    pub voice: usize,
    pub header: usize,
}

// At most five of them: the first `count`. What stands behind them says nothing, so two lists are not compared.
#[derive(Clone, Copy, Debug)]
pub struct Holders {
    pub count: usize,
    pub list: [Holder; 5],
    pub ghost few: { count ≤ 5 },
    pub ghost room: { length list ≡ 5 },
}

impl Holders {
    ghost use Rattle.std.specs.Prelude.{[]};
    ghost use Rattle.paths.specs.Voices.{lowest};
    ghost use Rattle.voices.specs.Mask.{voice_of};
    ghost use Rattle.holders.specs.Voice.{has};
    ghost use Rattle.holders.specs.Walk.{listed, put};

    // None.
    pub fn empty() -> Holders
        ensures { listed result ≡ [] }
    {
        let none = Holder {
            column: 0,
            voice: 0,
            header: 0,
        };
        Holders {
            count: 0,
            list: [none; 5],
        }
    }

    // All of them.
    pub fn as_slice(&self) -> &[Holder]
        ensures all { result.now ≡ listed self.now }
        ensures few { length result.now ≤ 5 }
    {
        &self.list[..self.count]
    }

    // One more, where there is room.
    pub(crate) fn push(&mut self, holder: Holder)
        ensures { listed self.new ≡ put (listed self.old) holder }
    {
        if self.count < 5 {
            self.list[self.count] = holder;
            self.count += 1;
        }
    }

    // Whether one of them has a voice.
    fn has(&self, voice: usize) -> bool
        ensures { result ≡ has voice (listed self.now) }
    {
        self.as_slice().iter().any(|holder| holder.voice == voice)
    }

    // The lowest of the voices 0 to 3 that none of them has.
    pub(crate) fn free_voice(&self) -> Option<usize>
        ensures { voice_of result ≡ lowest (λ v. has v (listed self.now)) }
    {
        (0..4).find(|voice| !self.has(*voice))
    }
}
