//! The generator of numbers.

ghost use Rattle.std.specs.Prelude.{◌≡◌, ◌<◌};
ghost use Rattle.survey_command.specs.Draws.{next_state, draw_of};

const MULTIPLIER: u64 = 6364136223846793005;

const INCREMENT: u64 = 1442695040888963407;

/// The state after this one.
pub fn step(state: u64) -> u64
    ensures { result ≡ next_state state }
{
    state.wrapping_mul(MULTIPLIER).wrapping_add(INCREMENT)
}

/// The number from 0 to 15 that a state gives.
pub fn draw(state: u64) -> u64
    ensures number { result ≡ draw_of state }
    ensures in_range { result < 16 }
{
    (state >> 33) % 16
}
