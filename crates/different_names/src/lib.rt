// Whether names are all different, in n log n comparisons. Their numbers are sorted by the names' bytes; what the order then shows is looked at
// anew, so that nothing rests on the sort: where it shows nothing, which no sort leaves, each name is compared with each.
#![tactic(auto)]

ghost use Rattle.std.specs.Prelude.{◌≡◌, ◌+◌, ◌-◌, ◌≤◌, ◌<◌};
ghost use Rattle.stored.specs.Stored.{most_items, among, distinct};
ghost use Rattle.different_names.specs.StandingNames.{name_at, names_from};
ghost use Rattle.different_names.specs.code.Orders.{order_of, ToldRight};

use std::cmp::Ordering;
use stored::MOST_ITEMS;

// What an order of the names tells of them.
#[derive(Clone, Copy)]
pub enum Told {
    Different,
    Twice,
    Unsure,
}

// A node of the heap has two children.
const CHILDREN: usize = 2;

// Name k.
#[tactic(auto, unfolding(crate::specs::StandingNames::name_at))]
fn name_of<'a>(
    s: &'a [u8],
    firsts: &[u64; MOST_ITEMS],
    sizes: &[u64; MOST_ITEMS],
    k: usize,
) -> &'a [u8]
    ensures { result.now ≡ name_at s.now firsts.now sizes.now k }
{
    let first = lent_tables::word_at(firsts, k) as usize;
    let size = lent_tables::word_at(sizes, k) as usize;
    stored::part(s, first, size)
}

// How name i stands to name j.
fn order_at(
    s: &[u8],
    firsts: &[u64; MOST_ITEMS],
    sizes: &[u64; MOST_ITEMS],
    i: usize,
    j: usize,
) -> Ordering
    ensures { result ≡ order_of (name_at s.now firsts.now sizes.now i) (name_at s.now firsts.now sizes.now j) }
{
    let a = name_of(s, firsts, sizes, i);
    let b = name_of(s, firsts, sizes, j);
    a.cmp(&b)
}

// ---- the sort: a heap, the last of which stands first

// The later of a node's children.
fn child_of(
    s: &[u8],
    firsts: &[u64; MOST_ITEMS],
    sizes: &[u64; MOST_ITEMS],
    order: &[usize; MOST_ITEMS],
    at: usize,
    n: usize,
) -> usize
    requires { (at + at + 1 < n) × (n ≤ most_items) }
    ensures { (at < result) × (result < n) }
{
    let left = CHILDREN * at + 1;
    let right = left + 1;
    if right < n && order_at(s, firsts, sizes, order[left], order[right]).is_lt() {
        return right;
    }
    left
}

// Moves a node down until no child is later.
fn sift(
    s: &[u8],
    firsts: &[u64; MOST_ITEMS],
    sizes: &[u64; MOST_ITEMS],
    order: &mut [usize; MOST_ITEMS],
    root: usize,
    n: usize,
)
    requires { n ≤ most_items }
{
    // a while: each turn goes on at the child that was swapped
    let mut at = root;
    while at < n / CHILDREN {
        let child = child_of(s, firsts, sizes, order, at, n);
        if !order_at(s, firsts, sizes, order[at], order[child]).is_lt() {
            return;
        }
        order.swap(at, child);
        at = child;
    }
}

fn sort(
    s: &[u8],
    firsts: &[u64; MOST_ITEMS],
    sizes: &[u64; MOST_ITEMS],
    order: &mut [usize; MOST_ITEMS],
    n: usize,
)
    requires { n ≤ most_items }
{
    for k in (0..n / CHILDREN).rev() {
        sift(s, firsts, sizes, order, k, n);
    }
    for m in (1..n).rev() {
        order.swap(0, m);
        sift(s, firsts, sizes, order, 0, m);
    }
}

// ---- what an order tells

fn told_by(
    s: &[u8],
    firsts: &[u64; MOST_ITEMS],
    sizes: &[u64; MOST_ITEMS],
    order: &[usize; MOST_ITEMS],
    n: usize,
) -> Told
    requires { n ≤ most_items }
    ensures { ToldRight (name_at s.now firsts.now sizes.now) n result }
{
    if n == 0 {
        return Told::Different;
    }
    let mut last = order[0];
    if n <= last {
        return Told::Unsure;
    }
    for i in 1..n {
        let next = order[i];
        if n <= next {
            return Told::Unsure;
        }
        match order_at(s, firsts, sizes, last, next) {
            Ordering::Less => {
                last = next;
            },
            Ordering::Equal => {
                if last == next {
                    return Told::Unsure;
                }
                return Told::Twice;
            },
            Ordering::Greater => {
                return Told::Unsure;
            },
        }
    }
    Told::Different
}

fn told_sorted(s: &[u8], firsts: &[u64; MOST_ITEMS], sizes: &[u64; MOST_ITEMS], n: usize) -> Told
    requires { n ≤ most_items }
    ensures { ToldRight (name_at s.now firsts.now sizes.now) n result }
{
    // numbered in place: an array that a function gives is moved by a `memcpy`, which an archive for C would need from outside
    let mut order = [0usize; MOST_ITEMS];
    for (k, place) in order.iter_mut().enumerate() {
        *place = k;
    }
    sort(s, firsts, sizes, &mut order, n);
    told_by(s, firsts, sizes, &order, n)
}

// ---- each with each

// Whether name k is one of those from j to n.
fn found_from(
    s: &[u8],
    firsts: &[u64; MOST_ITEMS],
    sizes: &[u64; MOST_ITEMS],
    k: usize,
    from: usize,
    n: usize,
) -> bool
    ensures { result ≡ among (name_at s.now firsts.now sizes.now k) (names_from (name_at s.now firsts.now sizes.now) from (n - from)) }
{
    let name = name_of(s, firsts, sizes, k);
    (from..n).any(|j| stored::same(name, name_of(s, firsts, sizes, j)))
}

fn each_with_each(s: &[u8], firsts: &[u64; MOST_ITEMS], sizes: &[u64; MOST_ITEMS], n: usize) -> bool
    ensures { result ≡ distinct (names_from (name_at s.now firsts.now sizes.now) 0 n) }
{
    for k in 0..n {
        if found_from(s, firsts, sizes, k, k + 1, n) {
            return false;
        }
    }
    true
}

// Whether the first n names are all different. Any text, any tables.
pub fn all_different(
    s: &[u8],
    firsts: &[u64; MOST_ITEMS],
    sizes: &[u64; MOST_ITEMS],
    n: usize,
) -> bool
    ensures { result ≡ distinct (names_from (name_at s.now firsts.now sizes.now) 0 n) }
{
    if MOST_ITEMS < n {
        return each_with_each(s, firsts, sizes, n);
    }
    match told_sorted(s, firsts, sizes, n) {
        Told::Different => true,
        Told::Twice => false,
        Told::Unsure => each_with_each(s, firsts, sizes, n),
    }
}
