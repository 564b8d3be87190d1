// allocate: reads lines of eight shares and eight counts of messages waiting, and prints for each the sixteen PIDS places.
#![tactic(auto)]

ghost use Rattle.std.specs.Prelude.{◌≡◌, length};

use programs::Streams;

// Room for the input of at most 16,384 bytes, and one byte to tell a longer one.
fn input_room() -> [u8; 16385]
    ensures { 16385 ≡ length result }
{
    [0; 16385]
}

// Room for what is printed: at most 64 bytes for each byte of the input.
fn output_room() -> [u8; 1048640]
    ensures { 1048640 ≡ length result }
{
    [0; 1048640]
}

// Answers the lines of standard input.
fn answer(rt: &impl Streams) {
    let mut input = input_room();
    let n = programs::read_full(rt, &mut input);
    if n > 16384 {
        programs::say(rt, b"refused: the input has more than 16384 bytes\n");
        return;
    }
    let mut out = output_room();
    let end = placelines::answer(&input[..n], &mut out);
    programs::write_out(rt, &out[..end]);
}

fn main(rt: HostRuntime) {
    if programs::is_plain(&rt, b"allocate <LINES") {
        answer(&rt);
    }
}
