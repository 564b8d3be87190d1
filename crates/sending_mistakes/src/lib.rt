// A sending with the contract of `sending::send`, which it calls: right as it stands. The senders that document 01 rules out by name, and others, are must-fail
// edits of it, so that what is refused is the mistake.
#![tactic(auto)]

ghost use Rattle.std.specs.Prelude.{◌≡◌};
ghost use Rattle.runs.specs.Sending.{send_step};
ghost use Rattle.calls.specs.Called.{gave, lent, memory};

use calls::Outcome;
use causes::is_success;
use runs::State;

// Sends an L1 frame.
pub fn send(
    state: State,
    reserved: u8,
    p1: &[u8],
    pids: &[u8],
    p2: &[u8],
    p3: &[u8],
    p4: &[u8],
    pm: &mut [u8],
    px1: &mut [u8],
    px2: &mut [u8],
    control: &mut [u8],
    memory3: &mut [u8],
    memory4: &mut [u8],
    delay: &mut [u8],
) -> Outcome
    ensures { gave result (memory memory3.new memory4.new delay.new) (lent reserved p1.now pids.now p2.now p3.now p4.now pm.new px1.new px2.new control.new) ≡ send_step state (memory memory3.old memory4.old delay.old) (lent reserved p1.now pids.now p2.now p3.now p4.now pm.old px1.old px2.old control.old) }
{
    // nothing is written before the call
    let sent = sending::send(
        state, reserved, p1, pids, p2, p3, p4, pm, px1, px2, control, memory3, memory4, delay,
    );
    let answer = sent.answer;
    let next = sent.state;
    if !is_success(answer) {
        return Outcome {
            answer,
            state: next,
        };
    }
    // nothing is written after it
    Outcome {
        answer,
        state: next,
    }
}
