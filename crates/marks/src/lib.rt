// What an item comes to, by its mark and its folded values. Every public function takes any values.
#![tactic(auto)]

ghost use Rattle.std.specs.Prelude.{◌≡◌};
ghost use Rattle.marks.specs.code.Marks.{operand_of, mark_sort, without_of, held_by, beside_mark, constant_of, subtype_of, first_bound, inside_of, range_under, ranged_of};

use folding::{Operator, Outcome, Relation, Sort, settled, sorted};
use integers::{Arithmetic, Folded, Kind};
use operands::{truth_leaf, whole_leaf, wrong_leaf};
use values::Value;

// A name used in an expression.
pub fn operand(v: Value) -> Outcome
    ensures { result ≡ operand_of v }
{
    match v {
        Value::Number(z) => whole_leaf(z),
        Value::Truth(t) => truth_leaf(t),
        Value::Range(_, _) | Value::Truths => wrong_leaf(states::KIND),
        Value::Without(s) => wrong_leaf(s),
    }
}

// The sort that a mark asks for.
fn mark_sort(v: Value) -> Sort
    ensures { result ≡ mark_sort v }
{
    match v {
        Value::Number(_) | Value::Truth(_) => Sort::Wrong(states::KIND),
        Value::Range(_, _) => Sort::Of(Kind::Integer),
        Value::Truths => Sort::Of(Kind::Truth),
        Value::Without(s) => Sort::Wrong(s),
    }
}

// The state of a folded answer that is not what its place wants.
fn without(f: Folded) -> Value
    ensures { result ≡ without_of f }
{
    match f {
        Folded::Whole(_) | Folded::Truth(_) => Value::Without(states::KIND),
        Folded::Stopped(s) => Value::Without(s),
    }
}

fn held(low: i32, high: i32, z: i32) -> Value
    ensures { result ≡ held_by low high z }
{
    if (low..=high).contains(&z) {
        Value::Number(z)
    } else {
        Value::Without(states::RANGE)
    }
}

// An initial value's folded answer, or the state that its sort has beside the mark's.
fn beside_mark(mark: Value, x: Outcome) -> Folded
    ensures { result ≡ beside_mark mark x }
{
    settled(Outcome {
        sort: sorted(Operator::Relation(Relation::Equal), mark_sort(mark), x.sort),
        folded: x.folded,
    })
}

// A constant's value by its mark.
pub fn constant_value(mark: Value, x: Outcome) -> Value
    ensures { result ≡ constant_of mark x }
{
    let answer = beside_mark(mark, x);
    match mark {
        Value::Range(low, high) => {
            let Folded::Whole(z) = answer else {
                return without(answer);
            };
            held(low, high, z)
        }
        Value::Truths => {
            let Folded::Truth(t) = answer else {
                return without(answer);
            };
            Value::Truth(t)
        }
        Value::Number(_) | Value::Truth(_) | Value::Without(_) => without(answer),
    }
}

// A subtype that gives no range has its mark's.
pub fn subtype_value(mark: Value) -> Value
    ensures { result ≡ subtype_of mark }
{
    match mark {
        Value::Number(_) | Value::Truth(_) => Value::Without(states::KIND),
        Value::Range(_, _) | Value::Truths | Value::Without(_) => mark,
    }
}

// A range's first bound, or the state that the sorts of mark and bounds have together.
fn first_bound(mark: Value, a: Outcome, b: Outcome) -> Folded
    ensures { result ≡ first_bound mark a b }
{
    let bounds = sorted(Operator::Arithmetic(Arithmetic::Add), a.sort, b.sort);
    settled(Outcome {
        sort: sorted(
            Operator::Arithmetic(Arithmetic::Add),
            mark_sort(mark),
            bounds,
        ),
        folded: a.folded,
    })
}

fn inside(mark: Value, low: i32, high: i32) -> Value
    ensures { result ≡ inside_of mark low high }
{
    match mark {
        Value::Range(least, most) if least <= low && high <= most => Value::Range(low, high),
        _ => Value::Without(states::RANGE),
    }
}

fn range_in(mark: Value, low: i32, high: i32) -> Value
    ensures { result ≡ range_under mark low high }
{
    if high < low {
        Value::Range(low, high)
    } else {
        inside(mark, low, high)
    }
}

// A subtype's value by its mark and the bounds of its range.
pub fn ranged_value(mark: Value, a: Outcome, b: Outcome, down: bool) -> Value
    ensures { result ≡ ranged_of mark a b down }
{
    let first = first_bound(mark, a, b);
    let second = b.folded;
    let Folded::Whole(x) = first else {
        return without(first);
    };
    let Folded::Whole(y) = second else {
        return without(second);
    };
    if down {
        return range_in(mark, y, x);
    }
    range_in(mark, x, y)
}
