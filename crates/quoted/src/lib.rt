// Where a string or an extended identifier closes: the quote that opened it, doubled quotes aside.
#![tactic(auto)]

ghost use Rattle.std.specs.Prelude.{◌≡◌};
ghost use Rattle.quoted.specs.Quoted.{closed};
ghost use Rattle.quoted.specs.code.Next.{next_at};

// A doubled quote, which stands for one.
const TWO_QUOTES: usize = 2;

// What stands next between two quotes.
#[derive(Clone, Copy)]
pub enum Next {
    Doubled,
    Closes,
    Inside,
    Breaks,
}

fn next_at(quote: u8, s: &[u8]) -> Next
    ensures { result ≡ next_at quote s.now }
{
    let b = classes::byte_or(s, 0);
    if b == quote {
        if s.len() < TWO_QUOTES {
            return Next::Closes;
        }
        if classes::byte_or(s, 1) == quote {
            return Next::Doubled;
        }
        return Next::Closes;
    }
    if classes::is_graphic(b) {
        return Next::Inside;
    }
    Next::Breaks
}

// After how many bytes the quote closes, itself among them, if it does. The text is what stands after the quote that opens.
pub fn closing(quote: u8, s: &[u8]) -> Option<usize>
    ensures { result ≡ closed quote s.now }
{
    // a while: each turn goes on after the one or two bytes that it passed
    let mut n = 0;
    while n < s.len() {
        match next_at(quote, &s[n..]) {
            Next::Doubled => {
                n += TWO_QUOTES;
            },
            Next::Closes => {
                return Some(n + 1);
            },
            Next::Inside => {
                n += 1;
            },
            Next::Breaks => {
                return None;
            },
        }
    }
    None
}
