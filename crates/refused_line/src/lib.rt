// The line of a refusal, which is all that is printed of a text that is refused, and what listings share. Every function takes any numbers and
// any buffer.
#![tactic(auto)]

ghost use Rattle.std.specs.Prelude.{◌≡◌, MatchOption};
ghost use Rattle.puts.specs.Puts.{Wrote};
ghost use Rattle.refused_line.specs.Refused.{place_text, refused_of, lines_by, whole_text, Unrefused, Refusing};

// Where the words of an answer stand that all have: a refusal's number and its place, and how many elements, rows or pieces there are.
pub const REFUSAL: usize = 0;

pub const PLACE: usize = 1;

pub const COUNT: usize = 2;

// Where a survey's has whether it is whole.
pub const WHOLE: usize = 4;

fn put_place(place: u64, out: &mut [u8], at: usize) -> usize
    ensures { Wrote out.old at (place_text place) out.new result }
{
    let a = puts::put_bytes(b" at ", out, at);
    let b = puts::put_decimal(place, out, a);
    puts::put_byte(puts::LINE_FEED, out, b)
}

// "`refused NO at PLACE`"
pub fn put_refused(number: u64, place: u64, out: &mut [u8], at: usize) -> usize
    ensures { Wrote out.old at (refused_of number place) out.new result }
{
    let a = puts::put_bytes(b"refused ", out, at);
    let b = puts::put_decimal(number, out, a);
    put_place(place, out, b)
}

// The refusal's line, of an answer that is one: it stands for whatever line the answer would have.
pub fn put_refusal(answer: &[u64], out: &mut [u8], at: usize) -> Option<usize>
    ensures { MatchOption result (Unrefused answer.now out.old out.new) (λ end. Refusing answer.now out.old at out.new end) }
{
    let number = lent_tables::word_at(answer, REFUSAL);
    if number == 0 {
        return None;
    }
    Some(put_refused(number, lent_tables::word_at(answer, PLACE), out, at))
}

// Whether a survey is whole, which ends its first line.
pub fn put_whole(whole: u64, out: &mut [u8], at: usize) -> usize
    ensures { Wrote out.old at (whole_text whole) out.new result }
{
    if whole == 1 {
        return puts::put_bytes(b" whole yes\n", out, at);
    }
    puts::put_bytes(b" whole no\n", out, at)
}

// How many lines an answer has that would have so many: a refusal has one.
pub fn lines_by(answer: &[u64], lines: usize) -> usize
    ensures { result ≡ lines_by answer.now lines }
{
    if lent_tables::word_at(answer, REFUSAL) == 0 {
        return lines;
    }
    1
}
