// The program `keys`: an input of an L1 frame, added to those before it (document 02, S-14).
#![tactic(auto)]

ghost use Rattle.std.specs.Prelude.{◌≡◌, ◌≤◌, MatchResult, [], false, length, take, true};
ghost use Rattle.io.specs.Counts.{IsPrefixLen};
ghost use Rattle.keys_step.specs.Summed.{add_input, added_to, not_taken, step};

// Puts which L1 frame of which run cannot be sent, and why.
fn put_not_taken(out: &mut [u8], run: u64, frame: u64, why: &[u8]) -> usize
    requires { (93 ≤ length out.old) × (length why.now ≤ 32) }
    ensures { IsPrefixLen result out.new × (take result out.new ≡ not_taken run frame why.now) }
{
    let a = text::put(out, 0, b"refused: run ");
    let b = text::field(out, a, run, b' ');
    let c = text::put(out, b, b"frame ");
    let d = text::field(out, c, frame, b':');
    text::put(out, d, why)
}

// Begins the sum, or adds to it.
fn add_to(run: u64, input: &[u8], sum: &mut [u8])
    requires { length input.now ≡ length sum.old }
    ensures { sum.new ≡ added_to run sum.old input.now }
{
    if run == 0 {
        bits::copy(input, sum);
        return;
    }
    summing::add(input, sum);
}

// Adds the input of L1 frame `frame` of this run. Where a sender would not take it, puts the line that says so, and answers its length.
pub fn add_input(
    run: u64,
    frame: u64,
    input: &[u8],
    sum: &mut [u8],
    line: &mut [u8],
) -> Result<(), usize>
    requires { 93 ≤ length line.old }
    ensures { MatchResult result (λ _. step true sum.new [] ≡ add_input run frame sum.old input.now)
        (λ n. IsPrefixLen n line.new × (step false sum.new (take n line.new) ≡ add_input run frame sum.old input.now)) }
{
    if input.len() != sum.len() {
        let length = put_not_taken(line, run, frame, b" it ends early\n");
        return Err(length);
    }
    let number = run_input::number_of(input);
    if number > 7 {
        let length = put_not_taken(line, run, frame, b" its reserved number is above 7\n");
        return Err(length);
    }
    add_to(run, input, sum);
    Ok(())
}
