ghost use Rattle.std.specs.Prelude.{◌≡◌, ◌<◌};
ghost use Rattle.demo_files.specs.Draws.{draw_below, next_state};

// The state after another one.
fn next(state: u64) -> u64
    ensures { result ≡ next_state state }
{
    let wide = u128::from(state) * 6_364_136_223_846_793_005 + 1_442_695_040_888_963_407;
    (wide % (1 << 64)) as u64
}

// Draws a number from 0, below `most`.
pub(crate) fn draw(state: &mut u64, most: u64) -> u64
    requires { 0 < most }
    ensures state { state.new ≡ next_state state.old }
    ensures number { result ≡ draw_below most state.new }
    ensures below { result < most }
{
    *state = next(*state);
    (*state >> 33) % most
}
