// judge: reads a dump from standard input, L1 frame by L1 frame, and prints one line: `accepted`, or as what it is refused (document 02, S-13), which it
// says in words on standard error.
#![tactic(auto)]

ghost use Rattle.std.specs.Prelude.{◌≤◌, length};
ghost use Rattle.io.specs.Counts.{IsPrefixLen};

use programs::Streams;

// Judges the L1 frames as they come, in a buffer as long as one, and puts the line.
fn judge_frames(
    rt: &impl Streams,
    mode: u8,
    count: usize,
    frame: &mut [u8],
    memory3: &mut [u8],
    memory4: &mut [u8],
    delay: &mut [u8],
    line: &mut [u8],
) -> usize
    requires { 251 ≤ length line.old }
    ensures { IsPrefixLen result line.new }
{
    let begun = calls::start_reader(mode, memory3, memory4, delay);
    let mut state = begun.state;
    for t in 0..count {
        let n = programs::read_full(rt, frame);
        let judged = judge_step::judge_bytes(
            mode,
            t,
            state,
            &frame[..n],
            memory3,
            memory4,
            delay,
            line,
        );
        let end = judged.length;
        if end > 0 {
            return end;
        }
        state = judged.state;
    }
    judge_step::put_last(standard_input::is_more(rt), count, line)
}

// The buffers of a run, each of its length in this mode.
fn judge_rest(rt: &impl Streams, mode: u8, count: usize, line: &mut [u8]) -> usize
    requires { 251 ≤ length line.old }
    ensures { IsPrefixLen result line.new }
{
    let want = modes::reader_lengths(mode);
    let mut frame = [0u8; 68608];
    let mut memory3 = [0u8; 27648];
    let mut memory4 = [0u8; 27648];
    let mut delay = [0u8; 27648];
    let n = programs::within(layout::frame_bytes(mode), &frame);
    let a = programs::within(want[9], &memory3);
    let b = programs::within(want[10], &memory4);
    let c = programs::within(want[11], &delay);
    judge_frames(
        rt,
        mode,
        count,
        &mut frame[..n],
        &mut memory3[..a],
        &mut memory4[..b],
        &mut delay[..c],
        line,
    )
}

// Judges the dump on standard input, and puts the line.
fn judge(rt: &impl Streams, line: &mut [u8]) -> usize
    requires { 251 ≤ length line.old }
    ensures { IsPrefixLen result line.new }
{
    let mut head = [0u8; 8];
    let n = programs::read_full(rt, &mut head);
    let answer = layout::head_answer(&head[..n]);
    if !causes::is_success(answer) {
        return judge_step::put_line(dumps::judged_as(answer, 0), line);
    }
    judge_rest(rt, head[5], layout::word_at(&head, 6), line)
}

fn main(rt: HostRuntime) {
    if !programs::is_plain(&rt, b"judge <DUMP") {
        return;
    }
    let mut line = [0u8; 251];
    let n = judge(&rt, &mut line);
    messages::tell(&rt, &line[..n]);
}
