// Figure 10-5: the coded bits of the vector U that Interleaver I takes to PM.
ghost use Rattle.std.specs.Prelude.{◌≡◌, ◌<◌, ◌≤◌};
ghost use Rattle.runs.specs.Chain.{p1_coded};
ghost use Rattle.finding.specs.VectorU.{frame_coded, p2_coded};

use runs::Main;

// The coded bits of a P1 frame.
pub fn frame_coded(main: Main) -> usize
    ensures { (result ≡ frame_coded main) × (0 < result) × (result ≤ 365440) }
{
    match main {
        Main::Plain => 365440,
        Main::Mp5 => 11520,
        Main::Mp6 => 23040,
    }
}

// The coded bits of the P1 frames of an L1 frame.
pub fn p1_coded(main: Main) -> usize
    ensures { (result ≡ p1_coded main) × (result ≤ 365440) }
{
    match main {
        Main::Plain => 365440,
        Main::Mp5 => 92160,
        Main::Mp6 => 184320,
    }
}

// The coded bits of P2; 0 in a mode that does not send it.
pub fn p2_coded(main: Main) -> usize
    ensures { (result ≡ p2_coded main) × (result ≤ 273280) }
{
    match main {
        Main::Plain => 0,
        Main::Mp5 => 273280,
        Main::Mp6 => 181120,
    }
}
