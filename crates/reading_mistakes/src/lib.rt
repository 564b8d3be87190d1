// A reading with the contract of `reading::read`, which it calls: right as it stands. The readers that document 01 rules out by name, and others, are must-fail
// edits of it, so that what is refused is the mistake.
#![tactic(auto)]

ghost use Rattle.std.specs.Prelude.{◌≡◌};
ghost use Rattle.runs.specs.Reading.{read_step};
ghost use Rattle.calls.specs.Called.{lent, memory, read_gave};

use calls::ReadOutcome;
use causes::is_success;
use runs::State;

// Reads an L1 frame.
pub fn read(
    state: State,
    p1: &mut [u8],
    pids: &mut [u8],
    p2: &mut [u8],
    p3: &mut [u8],
    p4: &mut [u8],
    pm: &[u8],
    px1: &[u8],
    px2: &[u8],
    control: &[u8],
    memory3: &mut [u8],
    memory4: &mut [u8],
    delay: &mut [u8],
) -> ReadOutcome
    ensures { read_gave result (memory memory3.new memory4.new delay.new) (lent result.reserved p1.new pids.new p2.new p3.new p4.new pm.now px1.now px2.now control.now) ≡ read_step state (memory memory3.old memory4.old delay.old) (lent 0 p1.old pids.old p2.old p3.old p4.old pm.now px1.now px2.now control.now) }
{
    let outcome = reading::read(
        state, p1, pids, p2, p3, p4, pm, px1, px2, control, memory3, memory4, delay,
    );
    let answer = outcome.answer;
    let next = outcome.state;
    let reserved = outcome.reserved;
    if !is_success(answer) {
        return ReadOutcome {
            answer,
            state: next,
            reserved,
        };
    }
    // nothing is written after the call
    ReadOutcome {
        answer,
        state: next,
        reserved,
    }
}
