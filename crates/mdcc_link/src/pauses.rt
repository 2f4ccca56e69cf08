//! When a centre has a pause.
ghost use Rattle.std.specs.Prelude.{◌≡◌, ◌≤◌, ◌+◌, ◌-◌, ◌^◌, min, false};
ghost use Rattle.mdcc_link.specs.Pauses.{IsNewPauses, after_receive, busy_at, busy_counted, has_pause, is_busy, is_of_pause, limit_for, pause_ended, pauses_restarted};

/// After so many datagrams a centre has a pause, whatever waits, where a receive waits for 20 milliseconds at most.
const BUSY_LIMIT: u32 = 4096;

/// What each centre received since its last pause, after how much it has the next one, and which centre has one now.
#[derive(Drop)]
pub struct Pauses {
    pub busy: [u32; 16],
    pub limit: u32,
    pub pausing: Option<u8>,
}

// After how many datagrams a centre has a pause where a receive waits for so many milliseconds at most: as many more as it
// waits longer, since a pause is to be rarer than a round trip.
fn limit_for(milliseconds: u16) -> u32
    ensures { result ≡ limit_for milliseconds }
{
    BUSY_LIMIT * u32::from(milliseconds) / 20
}

impl Pauses {
    /// Nothing was received yet.
    pub fn new() -> Pauses
        ensures { IsNewPauses result }
    {
        Pauses {
            busy: [0; 16],
            limit: BUSY_LIMIT,
            pausing: None,
        }
    }

    /// Lets a pause come after as much as fits receives that wait for so many milliseconds at most.
    pub fn set_wait(&mut self, milliseconds: u16)
        ensures { self.new ≡ record self.old { limit = limit_for milliseconds } }
    {
        self.limit = limit_for(milliseconds);
    }

    /// Counts what a centre received at one of its endpoints.
    pub fn count(&mut self, at: u8, weight: u32)
        ensures counted { self.new ≡ busy_counted at weight self.old }
        ensures later { busy_at at self.old ≤ busy_at at self.new }
        ensures more { min (busy_at at self.old + weight) (2 ^ 32 - 1) ≤ busy_at at self.new }
    {
        let index = usize::from(at % 16);
        self.busy[index] = self.busy[index].saturating_add(weight);
    }

    /// Counts for the centre anew, since time passes for it by itself.
    pub fn restart(&mut self, at: u8)
        ensures { self.new ≡ pauses_restarted at self.old }
    {
        self.busy[usize::from(at % 16)] = 0;
    }

    // Whether the centre received as much as is between two pauses.
    fn is_busy(&self, at: u8) -> bool
        ensures { result ≡ is_busy at self.now }
    {
        self.busy[usize::from(at % 16)] >= self.limit
    }

    // Ends the pause, if there is one, and answers whether this centre had it.
    fn end(&mut self, own: u8) -> bool
        ensures had { result ≡ has_pause self.old.pausing own }
        ensures ended { self.new ≡ pause_ended self.old }
    {
        match self.pausing.take() {
            Some(centre) => centre == own,
            None => false,
        }
    }

    /// Whether this receive is of a pause, which begins at a centre's own endpoint and ends at its client's.
    pub fn covers(&mut self, at: u8) -> bool
        ensures covers { result ≡ is_of_pause at self.old }
        ensures after { self.new ≡ after_receive at self.old }
        ensures same { result ≡ false → self.new.busy ≡ self.old.busy }
    {
        if at > 16 {
            return self.end(at - 16);
        }
        if !self.is_busy(at) {
            self.pausing = None;
            return false;
        }
        self.restart(at);
        self.pausing = Some(at);
        true
    }
}
