// What every lent table has in common: it can be made all zeros, a word of it is read with 0 past its end, and how much of it counts is the
// least of two numbers; and the front of lent bytes. Every function takes any table and any numbers.
#![tactic(auto)]

ghost use Rattle.std.specs.Prelude.{◌≡◌, min, length, get_or, take, replicate};
ghost use Rattle.lent_tables.specs.TableWords.{word_in};

pub fn clear(t: &mut [u64])
    ensures { t.new ≡ replicate (length t.old) 0 }
{
    t.fill(0);
}

// The item at a place, another past the end.
pub fn item_or<T: Copy>(s: &[T], i: usize, other: T) -> T
    ensures { result ≡ get_or s.now i other }
{
    s.get(i).copied().unwrap_or(other)
}

// The word at a place, 0 past the end.
pub fn word_at(t: &[u64], i: usize) -> u64
    ensures { result ≡ get_or t.now i 0 }
{
    item_or(t, i, 0)
}

// The word of a column of a row, where each row has WIDTH words: 0 where there is no such row or column.
pub fn word_in<const WIDTH: usize>(table: &[u64], row: usize, column: usize) -> u64
    ensures { result ≡ word_in WIDTH table.now row column }
{
    if WIDTH <= column {
        return 0;
    }
    if row < table.len() / WIDTH {
        return table[WIDTH * row + column];
    }
    0
}

// The least of two numbers.
pub fn least(a: usize, b: usize) -> usize
    ensures { result ≡ min a b }
{
    a.min(b)
}

// The first bytes, all of them where there are fewer.
pub fn front(s: &[u8], n: usize) -> &[u8]
    ensures { result.now ≡ take n s.now }
{
    &s[..least(n, s.len())]
}
