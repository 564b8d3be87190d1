// The arguments of the programs.
#![tactic(auto)]

ghost use Rattle.std.specs.Prelude.{◌≡◌, ◌+◌, ◌-◌, ◌*◌, ◌≤◌, min};
ghost use Rattle.operands.specs.Operands.{is_digit, limit, operand_of};

// The greatest number that is told apart.
const LIMIT: u64 = 4_294_967_296;

#[tactic(auto, unfolding(crate::specs::Operands::is_digit))]
fn is_digit(byte: u8) -> bool
    ensures { result ≡ is_digit byte }
{
    matches!(byte, b'0'..=b'9')
}

// The number with one more digit, the limit at most.
fn push(n: u64, byte: u8) -> u64
    requires { (n ≤ limit) × (48 ≤ byte) }
    ensures { result ≡ min limit (10 * n + (byte - 48)) }
{
    LIMIT.min(10 * n + u64::from(byte - b'0'))
}

// An argument as a number, if it is decimal.
pub fn decimal(text: &[u8]) -> Option<u64>
    ensures { result ≡ operand_of text.now }
{
    if text.is_empty() {
        return None;
    }
    let mut n: u64 = 0;
    for byte in text {
        if !is_digit(*byte) {
            return None;
        }
        n = push(n, *byte);
    }
    Some(n)
}
