// The older mode whose PX1 a mode has.
ghost use Rattle.std.specs.Prelude.{◌≡◌};
ghost use Rattle.finding_px.specs.Finder.{as_older, in_mode};

use runs::{Main, State};

// The same half and number in another mode, and the age as far as the older modes count it.
fn in_mode(mode: u8, state: State) -> State
    ensures { result ≡ in_mode mode state }
{
    if state.age > 2 {
        return State {
            mode,
            half: state.half,
            age: 2,
            reserved: state.reserved,
        };
    }
    State {
        mode,
        half: state.half,
        age: state.age,
        reserved: state.reserved,
    }
}

// MP5 sends P3 as MP3 does, and MP6 neither P3 nor P4, as MP1.
pub fn as_older(main: Main, state: State) -> State
    ensures { result ≡ as_older main state }
{
    match main {
        Main::Plain => state,
        Main::Mp5 => in_mode(3, state),
        Main::Mp6 => in_mode(1, state),
    }
}
