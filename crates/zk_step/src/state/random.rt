// Random numbers.

ghost use Rattle.std.specs.Prelude.{◌≡◌, ◌<◌};
ghost use Rattle.zk_step.specs.Random.{next_state, number_in, randomised};

/// The states of the two sequences of random numbers (Z-Machine Standards Document 1.1, sections 2.4 and 15,
/// `random`): the free one, which begins with the seed of the machine, and the predictable one, which a story
/// opens and closes.
#[derive(Clone, Copy, Drop)]
pub struct Generators {
    pub free: u64,
    pub predictable: Option<u64>,
}

fn advance(state: u64) -> u64
    ensures { result ≡ next_state state }
{
    state
        .wrapping_mul(6_364_136_223_846_793_005)
        .wrapping_add(1_442_695_040_888_963_407)
}

/// The number from 1 to a range that a state gives.
fn number_by(state: u64, range: u16) -> u16
    requires { 0 < range }
    ensures { result ≡ number_in range state }
{
    ((state >> 33) % range as u64 + 1) as u16
}

impl Generators {
    /// The result of `random`: the next number from 1 to a positive range, in the predictable sequence where
    /// it is open. A range of -n opens that sequence at n, and 0 closes it; both give 0.
    #[tactic(auto, unfolding(crate::specs::Random::randomised))]
    pub fn random(&mut self, range: u16) -> u16
        ensures { randomised self.old range ≡ (self.new, result) }
    {
        if range == 0 {
            self.predictable = None;
            return 0;
        }
        if range >= 32_768 {
            self.predictable = Some(range.wrapping_neg() as u64);
            return 0;
        }
        match self.predictable {
            None => {
                self.free = advance(self.free);
                number_by(self.free, range)
            }
            Some(state) => {
                let next = advance(state);
                self.predictable = Some(next);
                number_by(next, range)
            }
        }
    }
}
