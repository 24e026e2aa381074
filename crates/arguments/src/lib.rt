// What the programs read off their arguments.
#![tactic(auto)]

ghost use Rattle.std.specs.Prelude.{◌≡◌, ◌+◌, ◌*◌, ◌≤◌, min};
ghost use Rattle.classes.specs.Bytes.{ten, digit_value};
ghost use Rattle.arguments.specs.Arguments.{amount_of, same_argument};

// The number that digits alone spell, the most where it is above that.
pub fn value_of(s: &[u8], most: u32) -> Option<usize>
    ensures { result ≡ amount_of most s.now }
{
    if s.len() == 0 {
        return None;
    }
    let mut v = 0;
    for b in s {
        if !classes::is_digit(*b) {
            return None;
        }
        v = with_digit(v, *b, most);
    }
    Some(v)
}

const TEN: usize = classes::TEN as usize;

// One digit more.
fn with_digit(v: usize, b: u8, most: u32) -> usize
    requires { v ≤ most }
    ensures { result ≡ min most (v * ten + digit_value b) }
{
    let n = v * TEN + usize::from(classes::digit_value(b));
    n.min(most as usize)
}

pub fn same_bytes(a: &[u8], b: &[u8]) -> bool
    ensures { result ≡ same_argument a.now b.now }
{
    a == b
}
