ghost use Rattle.std.specs.Prelude.{◌≡◌, ◌↔◌, IsTrue};

use rf_text::List;

/// The calls of a world or a sink in memory: they are numbered from 0, and chosen ones fail.
#[derive(Drop)]
pub(crate) struct Calls {
    failing: List<u64>,
    made: u64,
}

impl Calls {
    ghost use Rattle.rf_world.specs.Calls.{CountsOneCall, FailsNext, calls_made, failing_calls};

    pub(crate) fn new(failing: List<u64>) -> Calls
        ensures failing { failing_calls result ≡ failing }
        ensures made { calls_made result ≡ 0 }
    {
        Calls { failing, made: 0 }
    }

    /// Counts one more call, and says whether that call fails.
    pub(crate) fn begin(&mut self) -> bool
        ensures fails { IsTrue result ↔ FailsNext self.old }
        ensures call { CountsOneCall self.old self.new }
    {
        let fails = self.failing.as_slice().contains(&self.made);
        self.made = self.made.saturating_add(1);
        fails
    }
}
