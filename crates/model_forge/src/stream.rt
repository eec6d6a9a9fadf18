// A stream of numbers that a seed determines.
ghost use Rattle.std.specs.Prelude.{◌≡◌, ◌/◌, ◌^◌, ◌<◌};
ghost use Rattle.model_forge.specs.Stream.{next_state};

/// A linear congruential stream, of which contracts see the state.
#[derive(Debug, Drop)]
pub(crate) struct Stream {
    pub state: u64,
}

impl Stream {
    /// The next number: the upper half of the state that follows.
    #[inline]
    pub(crate) fn draw(&mut self) -> u32
        ensures state { self.new.state ≡ next_state self.old.state }
        ensures number { result ≡ self.new.state / 2 ^ 32 }
    {
        self.state = next_state(self.state);
        (self.state >> 32) as u32
    }
}

// The state that follows a state.
#[inline]
fn next_state(state: u64) -> u64
    ensures { result ≡ next_state state }
{
    state
        .wrapping_mul(6_364_136_223_846_793_005)
        .wrapping_add(1_442_695_040_888_963_407)
}
